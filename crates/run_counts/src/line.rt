//! The line of a run's numbers.
ghost use Rattle.std.specs.Prelude.{◌≡◌, ◌++◌, [], ◌∷◌, map, codes, decimal, IfOk};
ghost use Rattle.run_counts.specs.Counts.{fields_text, counts_line};

use crate::counts::RunCounts;
use itoa::Buffer;
use std::alloc::AllocError;

/// A field.
#[tactic(auto, using(crate::proofs::TextLemmas::text_rules))]
fn push_number(out: &mut Vec<u8>, number: u128) -> Result<(), AllocError>
    ensures { IfOk result (λ _. out.new.items ≡ out.old.items ++ fields_text (decimal number ∷ [])) }
{
    let mut buffer = Buffer::new();
    out.extend_from_slice(b" ")?;
    out.extend_from_slice(buffer.format(number).as_bytes())
}

/// A field for each.
#[tactic(auto, using(crate::proofs::TextLemmas::text_rules))]
fn push_numbers(out: &mut Vec<u8>, numbers: &[u128]) -> Result<(), AllocError>
    ensures { IfOk result (λ _. out.new.items ≡ out.old.items ++ fields_text (map decimal numbers.now)) }
{
    for number in numbers {
        push_number(out, *number)?;
    }
    Ok(())
}

#[tactic(auto, using(crate::proofs::TextLemmas::text_rules), unfolding(crate::specs::Counts::counts_line))]
/// Adds the line of the numbers of a ladder's run, of so many sections.
pub fn push_counts(out: &mut Vec<u8>, size: u32, counts: &RunCounts) -> Result<(), AllocError>
    ensures { IfOk result (λ _. out.new.items ≡ out.old.items ++ counts_line size counts.now) }
{
    let events = counts.events;
    let numbers = [
        u128::from(size),
        events.points,
        events.signals,
        events.crossings,
        u128::from(counts.attempts),
    ];
    out.push(b'M')?;
    push_numbers(out, numbers.as_slice())?;
    out.push(b'\n')?;
    Ok(())
}
