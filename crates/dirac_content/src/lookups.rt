ghost use Rattle.std.specs.Prelude.{◌≡◌};
ghost use Rattle.std.specs.Option.{option_copied};
ghost use Rattle.dirac_content.specs.Content as content;

use dirac_common::Picture;
use dirac_refs::{RefBuffer, Reference};

/// The listed picture of the number that a header may name.
pub fn named(refs: &RefBuffer, number: Option<u32>) -> Option<&Picture>
    ensures { option_copied result ≡ content.named refs.now number }
{
    match number {
        None => None,
        Some(number) => refs.find(number),
    }
}

/// The listed picture of the number that a header may name, with its half samples where they are kept.
pub fn named_reference(refs: &RefBuffer, number: Option<u32>) -> Option<&Reference>
    ensures { option_copied result ≡ content.named refs.now number }
{
    match number {
        None => None,
        Some(number) => refs.find_reference(number),
    }
}
