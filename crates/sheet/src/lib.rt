// The check of a whole run sheet.

#![tactic(auto)]

ghost use Rattle.std.specs.Prelude.{◌≡◌};
ghost use Rattle.sheet.specs.Check.{check_sheet};

use refusals::{Refusal, Verdict};

mod checks;

// The check of a whole sheet: its first refusal, if there is one.
// Refused: 9 a sheet that is empty or over 4,096 bytes; 10 to 13 and 15 each command, lowest offset first: unknown, cut off, out of
// order, operand out of range, an inverse letter while q has no inverse; 14 a byte after the end command, or no end command.
// Example: a lone 0x00 is refused with 12 at 0.
#[tactic(auto, unfolding(crate::specs::Check::check_sheet, lists::specs::Lists::same, lists::specs::Lists::less))]
pub fn check(sheet: &[u8]) -> Verdict
    ensures { result ≡ check_sheet sheet.now }
{
    if sheet.is_empty() || 4096 < sheet.len() {
        return Err(Refusal::Bytes);
    }
    checks::commands(sheet, sheet_format::header_of(sheet))
}
