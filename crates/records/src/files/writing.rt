// Writing whole numbers in decimal.
ghost use Rattle.std.specs.Prelude.{◌≡◌, length};
ghost use Rattle.records.specs.Files.Writing.{decimal_text};

use itoa::write_digits;

// The count of digits of a whole number in decimal.
#[tactic(auto, using(crate::proofs::WritingLaws::digits_counted, crate::proofs::WritingLaws::none_counted))]
pub(crate) fn decimal_length(value: usize) -> usize
    ensures { result ≡ length (decimal_text value) }
{
    match value.checked_ilog10() {
        Some(others) => others as usize + 1,
        None => 1,
    }
}

// Writes a whole number in decimal.
#[tactic(auto, using(crate::proofs::WritingLaws::decimal_library, crate::proofs::WritingLaws::decimal_whole))]
pub(crate) fn write_decimal(value: usize, target: &mut [u8])
    requires { length target.old ≡ length (decimal_text value) }
    ensures { target.new ≡ decimal_text value }
{
    let end = target.len();
    write_digits(value as u64, target, end);
}
