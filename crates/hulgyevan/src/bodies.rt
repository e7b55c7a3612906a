// Contents and bodies: calls of the layer codec.
ghost use Rattle.std.specs.Result.{OnOk};
ghost use Rattle.std.specs.Prelude.{◌≡◌, ◌+◌, ◌≤◌, length, take};
ghost use Rattle.decimal.specs.Answer.{done, meaning, mapped, checked_only};
ghost use Rattle.codec.specs.Lists.{max_columns};
ghost use Rattle.codec.specs.Unpacking.{unpacking};
ghost use Rattle.codec.specs.Remainders.{packing_remainders, size_of, remainders_of};
ghost use Rattle.codec.specs.Answers.{stored_in, sized};
ghost use Rattle.codec.specs.Contents.{read_alone};
ghost use Rattle.codec.specs.Packing.{packing};
ghost use Rattle.codec.specs.Alpha.{writing_alpha};
ghost use Rattle.hulgyevan.specs.Words.{number_in, numbers_in};
ghost use Rattle.hulgyevan.specs.Outcomes.{outcome, value_or};
ghost use Rattle.hulgyevan.specs.Bodies.{columns_of, body_of, unpacking_words, packing_both, remainders_both};

use crate::words::{
    FEW, NUMBERS, give_size, number_of, numbers_of, refusal_word, store_numbers, store_remainders,
};
use codec::{Contents, Numbers, Packed, alpha};
use decimal::Refusal;

// Packs the numbers of the first N words under the bytes of a contents lent alone.
#[tactic(auto, using(crate::proofs::AloneLaws::alone_refused, crate::proofs::AloneLaws::alone_packs), unfolding(decimal::specs::Answer::mapped, codec::specs::Answers::sized, codec::specs::Answers::stored_in))]
fn pack_first<const N: usize>(
    contents: &[u8],
    words: &[u64],
    buffer: &mut [u8],
) -> Result<usize, Refusal>
    requires { N ≤ max_columns + 1 }
    ensures answer { meaning result ≡ sized (packing contents.now (numbers_in (take N words.now)) (length buffer.old)) }
    ensures bytes { buffer.new ≡ stored_in (packing contents.now (numbers_in (take N words.now)) (length buffer.old)) buffer.old }
{
    let list = numbers_of::<N>(words);
    codec::pack(&Contents::read(contents)?, &list, buffer)
}

// Packs the numbers of the first N words under the bytes of a contents lent alone, and gives the remainders.
#[tactic(auto, using(crate::proofs::AloneLaws::alone_refused, crate::proofs::AloneLaws::alone_packs, crate::proofs::AloneLaws::alone_leaves, crate::proofs::AloneLaws::alone_left_refused), unfolding(decimal::specs::Answer::mapped, codec::specs::Answers::sized, codec::specs::Answers::stored_in))]
fn pack_first_with_remainders<const N: usize>(
    contents: &[u8],
    words: &[u64],
    buffer: &mut [u8],
) -> Result<Packed, Refusal>
    requires { N ≤ max_columns + 1 }
    ensures answer { mapped size_of (meaning result) ≡ sized (packing contents.now (numbers_in (take N words.now)) (length buffer.old)) }
    ensures bytes { buffer.new ≡ stored_in (packing contents.now (numbers_in (take N words.now)) (length buffer.old)) buffer.old }
    ensures remainders { mapped remainders_of (meaning result) ≡ packing_remainders contents.now (numbers_in (take N words.now)) (length buffer.old) }
{
    let list = numbers_of::<N>(words);
    codec::pack_with_remainders(&Contents::read(contents)?, &list, buffer)
}

// Packs the numbers of words under the bytes of a contents lent alone, and gives the remainders.
#[tactic(auto, using(crate::proofs::CutLaws::cut_packing, crate::proofs::CutLaws::cut_remainders))]
fn pack_words_with_remainders(
    contents: &[u8],
    words: &[u64],
    buffer: &mut [u8],
) -> Result<Packed, Refusal>
    ensures answer { mapped size_of (meaning result) ≡ sized (packing contents.now (numbers_in words.now) (length buffer.old)) }
    ensures bytes { buffer.new ≡ stored_in (packing contents.now (numbers_in words.now) (length buffer.old)) buffer.old }
    ensures remainders { mapped remainders_of (meaning result) ≡ packing_remainders contents.now (numbers_in words.now) (length buffer.old) }
{
    if words.len() <= FEW {
        pack_first_with_remainders::<FEW>(contents, words, buffer)
    } else {
        pack_first_with_remainders::<NUMBERS>(contents, words, buffer)
    }
}

// Reads the numbers of a body under the bytes of a contents lent alone into a list, in place of what it held.
#[tactic(auto, using(crate::proofs::AloneLaws::alone_unread, crate::proofs::AloneLaws::alone_unpacks, codec::proofs::UnpackLaws::given_done), unfolding(decimal::specs::Answer::checked_only))]
fn unpack_alone(contents: &[u8], body: &[u8], numbers: &mut Numbers) -> Result<(), Refusal>
    ensures answer { meaning result ≡ checked_only (unpacking contents.now body.now) }
    ensures list { OnOk result (done numbers.new.items ≡ unpacking contents.now body.now) }
{
    Contents::read(contents)?.unpack_into(body, numbers)
}

// The count of columns of a contents lent alone, and the length of a body under it; refused with 11, 10, then from the left with 11, 1, 2.
#[tactic(auto, using(crate::proofs::CallLaws::table_word, crate::proofs::CallLaws::table_refused, crate::proofs::CallLaws::table_columns, crate::proofs::CallLaws::table_body, crate::proofs::CallLaws::table_kept))]
#[unsafe(no_mangle)]
pub extern "C" fn hulgyevan_read_contents(
    contents: &[u8],
    columns: &mut usize,
    body: &mut usize,
) -> u64
    ensures word { result ≡ outcome (read_alone contents.now) }
    ensures columns { columns.new ≡ value_or (mapped columns_of (read_alone contents.now)) columns.old }
    ensures body { body.new ≡ value_or (mapped body_of (read_alone contents.now)) body.old }
{
    match Contents::read(contents) {
        Ok(table) => {
            *columns = table.images().len();
            *body = table.body_size();
            0
        }
        Err(refusal) => refusal_word(refusal),
    }
}

// Packs a list of numbers under a contents into a buffer, and gives the body's length: the bytes behind it stay.
// Refused as the contents is, then with 10, items from the left with 3, 4, 5 and the column, last with 6; then nothing changes.
#[tactic(auto, using(crate::proofs::OutcomeLaws::outcome_sized, crate::proofs::CutLaws::cut_packing))]
#[unsafe(no_mangle)]
pub extern "C" fn hulgyevan_pack(
    contents: &[u8],
    numbers: &[u64],
    buffer: &mut [u8],
    size: &mut usize,
) -> u64
    ensures word { result ≡ outcome (packing contents.now (numbers_in numbers.now) (length buffer.old)) }
    ensures size { size.new ≡ value_or (sized (packing contents.now (numbers_in numbers.now) (length buffer.old))) size.old }
    ensures bytes { buffer.new ≡ stored_in (packing contents.now (numbers_in numbers.now) (length buffer.old)) buffer.old }
{
    let packed = if numbers.len() <= FEW {
        pack_first::<FEW>(contents, numbers, buffer)
    } else {
        pack_first::<NUMBERS>(contents, numbers, buffer)
    };
    give_size(packed, size)
}

// Packs as hulgyevan_pack does, and gives what each image cut off its number; refused as packing is, with 6 also where the remainders have
// no room.
#[tactic(auto, using(crate::proofs::OutcomeLaws::outcome_sized, crate::proofs::OutcomeLaws::sized_word, crate::proofs::OutcomeLaws::sized_value, crate::proofs::OutcomeLaws::unsized_word, crate::proofs::OutcomeLaws::unsized_value, crate::proofs::CutLaws::cut_packing, crate::proofs::BothLaws::both_packs, crate::proofs::BothLaws::both_remainders, crate::proofs::BothLaws::both_none, crate::proofs::BothLaws::both_empty, crate::proofs::BothLaws::both_stays, crate::proofs::BothLaws::both_cut), unfolding(decimal::specs::Answer::mapped, codec::specs::Answers::stored_in))]
#[unsafe(no_mangle)]
pub extern "C" fn hulgyevan_pack_with_remainders(
    contents: &[u8],
    numbers: &[u64],
    buffer: &mut [u8],
    remainders: &mut [u64],
    size: &mut usize,
) -> u64
    ensures word { result ≡ outcome (packing_both contents.now (numbers_in numbers.now) (length buffer.old) (length remainders.old)) }
    ensures size { size.new ≡ value_or (sized (packing_both contents.now (numbers_in numbers.now) (length buffer.old) (length remainders.old))) size.old }
    ensures bytes { buffer.new ≡ stored_in (packing_both contents.now (numbers_in numbers.now) (length buffer.old) (length remainders.old)) buffer.old }
    ensures remainders { remainders.new ≡ stored_in (remainders_both contents.now (numbers_in numbers.now) (length buffer.old) (length remainders.old)) remainders.old }
{
    // A body is never empty: it is refused as one that has no room where the remainders have none, so that 6 comes last.
    if remainders.len() < numbers.len() {
        return give_size(pack_first::<NUMBERS>(contents, numbers, &mut []), size);
    }
    match pack_words_with_remainders(contents, numbers, buffer) {
        Ok(packed) => {
            store_remainders(&packed.remainders, remainders);
            *size = packed.size;
            0
        }
        Err(refusal) => refusal_word(refusal),
    }
}

// The numbers of a body under a contents, and their count. Refused as the contents is, with 11 for a body of another length, from the left
// with 7 and the column, last with 6.
#[tactic(auto, using(crate::proofs::OutcomeLaws::outcome_sized, codec::proofs::UnpackLaws::given_refused, crate::proofs::CallLaws::unpacked_refused, crate::proofs::CallLaws::unpacked_stored), unfolding(crate::specs::Outcomes::outcome, crate::specs::Outcomes::value_or, codec::specs::Answers::stored_in, codec::specs::Answers::sized, decimal::specs::Answer::mapped))]
#[unsafe(no_mangle)]
pub extern "C" fn hulgyevan_unpack(
    contents: &[u8],
    body: &[u8],
    numbers: &mut [u64],
    count: &mut usize,
) -> u64
    ensures word { result ≡ outcome (unpacking_words contents.now body.now (length numbers.old)) }
    ensures count { count.new ≡ value_or (sized (unpacking_words contents.now body.now (length numbers.old))) count.old }
    ensures numbers { numbers.new ≡ stored_in (unpacking_words contents.now body.now (length numbers.old)) numbers.old }
{
    let mut list = Numbers::new();
    match unpack_alone(contents, body, &mut list) {
        Ok(()) => give_size(store_numbers(&list, numbers), count),
        Err(refusal) => refusal_word(refusal),
    }
}

// Writes the alpha text of a number under an image into a buffer, and gives its length; refused with 1, 2, 3, 4, 5, 6 in this order.
#[tactic(auto, using(crate::proofs::OutcomeLaws::outcome_sized))]
#[unsafe(no_mangle)]
pub extern "C" fn hulgyevan_alpha(
    image: &[u8],
    number: u64,
    buffer: &mut [u8],
    size: &mut usize,
) -> u64
    ensures word { result ≡ outcome (writing_alpha image.now (number_in number) (length buffer.old)) }
    ensures size { size.new ≡ value_or (sized (writing_alpha image.now (number_in number) (length buffer.old))) size.old }
    ensures bytes { buffer.new ≡ stored_in (writing_alpha image.now (number_in number) (length buffer.old)) buffer.old }
{
    give_size(alpha(image, number_of(number), buffer), size)
}
