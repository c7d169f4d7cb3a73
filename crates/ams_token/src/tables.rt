ghost use Rattle.std.specs.Prelude.{◌≡◌, MatchOption, Contains, IsTrue};
ghost use Rattle.ams_token.specs.Tables.{texts_of, rises, Holds};

/// What a table has for a text. Its texts rise in the order of their bytes.
pub fn find_text<T: Copy>(table: &[(T, &str)], text: &str) -> Option<T>
    requires { IsTrue (rises (texts_of table.now)) }
    ensures { MatchOption result (Contains (texts_of table.now) text.now → ⊥) (λ x. Holds table.now x text.now) }
{
    match table.binary_search_by_key(&text, |entry| entry.1) {
        Ok(at) => Some(table[at].0),
        Err(_) => None,
    }
}
