//! Which values there are.
ghost use Rattle.std.specs.Prelude.{◌≡◌, ◌||◌, false, OnErr, OnOk};
ghost use Rattle.ams_value.specs.Values.{equals};
ghost use Rattle.ams_value.specs.declared.val.Val.{Val as Value};
ghost use Rattle.indexmap.specs.IndexSet.{insert_key};
ghost use Rattle.value_list.specs.Index.{holds};

use crate::truths::Truths;
use ams_value::Val;
use indexmap::IndexSet;
use std::alloc::{AllocError, Global};
use std::hash::Hash;

/// A set of values.
#[derive(Drop)]
pub struct ValueIndex {
    booleans: Truths,
    bits: Truths,
    integers: IndexSet<i32>,
    /// Reals by their units.
    reals: IndexSet<i128>,
    times: IndexSet<i64>,
    /// Literals by their type and their position.
    literals: IndexSet<(u16, u16)>,
    /// Vectors by their length and their content.
    vectors: IndexSet<(u8, u64)>,
}

fn add<K: Hash + Eq + Drop>(keys: &mut IndexSet<K>, key: K) -> Result<(), AllocError>
    ensures ok { OnOk result (keys.new.keys ≡ insert_key K.eq keys.old.keys key) }
    ensures err { OnErr result (keys.new.keys ≡ keys.old.keys) }
{
    match keys.insert(key) {
        Ok(_) => Ok(()),
        Err(_) => Err(AllocError),
    }
}

impl ValueIndex {
    pub fn new(alloc: Global) -> ValueIndex
        ensures { (value : Value) → holds result value ≡ false }
    {
        ValueIndex {
            booleans: Truths::new(),
            bits: Truths::new(),
            integers: IndexSet::new(alloc),
            reals: IndexSet::new(alloc),
            times: IndexSet::new(alloc),
            literals: IndexSet::new(alloc),
            vectors: IndexSet::new(alloc),
        }
    }

    pub fn contains(&self, value: &Val) -> bool
        ensures { result ≡ holds self.now value.now }
    {
        match value {
            Val::Bool(truth) => self.booleans.contains(*truth),
            Val::Bit(bit) => self.bits.contains(*bit),
            Val::Int(number) => self.integers.contains(number),
            Val::Real(number) => self.reals.contains(&number.units()),
            Val::Time(ticks) => self.times.contains(ticks),
            Val::Enum(number, position) => self.literals.contains(&(*number, *position)),
            Val::Bits(length, content) => self.vectors.contains(&(*length, *content)),
        }
    }

    /// Puts a value among the others.
    #[tactic(auto, unfolding(ams_value::specs::Values::equals))]
    pub fn insert(&mut self, value: &Val) -> Result<(), AllocError>
        ensures ok { OnOk result ((other : Value) → holds self.new other ≡ (equals other value.now || holds self.old other)) }
        ensures err { OnErr result ((other : Value) → holds self.new other ≡ holds self.old other) }
    {
        match value {
            Val::Bool(truth) => {
                self.booleans.insert(*truth);
                Ok(())
            }
            Val::Bit(bit) => {
                self.bits.insert(*bit);
                Ok(())
            }
            Val::Int(number) => add(&mut self.integers, *number),
            Val::Real(number) => add(&mut self.reals, number.units()),
            Val::Time(ticks) => add(&mut self.times, *ticks),
            Val::Enum(number, position) => add(&mut self.literals, (*number, *position)),
            Val::Bits(length, content) => add(&mut self.vectors, (*length, *content)),
        }
    }
}
