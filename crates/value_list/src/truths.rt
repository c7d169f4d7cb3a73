//! Which truth values there are.
ghost use Rattle.std.specs.Prelude.{◌≡◌, ◌||◌, Bool, false};
ghost use Rattle.ams_value.specs.Values.{same_truth};
ghost use Rattle.value_list.specs.Index.{truth_in};

/// A set of truth values.
#[derive(Drop)]
pub struct Truths {
    has_false: bool,
    has_true: bool,
}

impl Truths {
    pub fn new() -> Truths
        ensures { (b : Bool) → truth_in result b ≡ false }
    {
        Truths {
            has_false: false,
            has_true: false,
        }
    }

    pub fn contains(&self, truth: bool) -> bool
        ensures { result ≡ truth_in self.now truth }
    {
        if truth { self.has_true } else { self.has_false }
    }

    /// Puts a truth value among the others.
    pub fn insert(&mut self, truth: bool)
        ensures { (other : Bool) → truth_in self.new other ≡ (same_truth other truth || truth_in self.old other) }
    {
        if truth {
            self.has_true = true;
        } else {
            self.has_false = true;
        }
    }
}
