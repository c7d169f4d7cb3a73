//! What the statements of an instance are read with.
ghost use Rattle.std.specs.Prelude.{◌≡◌};
ghost use Rattle.walk_answers.specs.Answers as spec;

use ams_token::Names;
use flat_design::Enumeration;
use sqlite_items::Items;
use statement_parts::Setting;

/// The setting of these lists.
pub fn setting_with<'a>(
    names: &'a Names,
    enumerations: &'a Items<Enumeration>,
    selectors: &'a Items<u32>,
) -> Setting<'a>
    ensures { result ≡ spec.setting_with names.now enumerations.now selectors.now }
{
    Setting::new(names, enumerations.as_slice(), selectors.as_slice())
}
