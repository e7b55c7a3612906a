// Packing that also gives what truncation cut off each number (document 02, (ii)).
ghost use Rattle.std.specs.Prelude.{◌≡◌, ◌≤◌, length};
ghost use Rattle.decimal.specs.Answer.{done, meaning, mapped};
ghost use Rattle.codec.specs.Answers.{stored_in, sized};
ghost use Rattle.codec.specs.Lists.{max_columns};
ghost use Rattle.codec.specs.Packing.{packing_under, AllPack};
ghost use Rattle.codec.specs.Remainders.{cut_columns, remainders_under, size_of, remainders_of};

use crate::contents::Contents;
use crate::lists::Remainders;
use crate::packing::pack;
use decimal::{Fitting, Image, Number, Refusal, Remainder};

// How many bytes packing wrote, and what truncation cut off the numbers that it packed, one remainder for each column.
#[derive(Clone, Copy, Debug, PartialEq, Eq, Hash)]
pub struct Packed {
    pub size: usize,
    pub remainders: Remainders,
}

// What truncation cuts off numbers that can be packed, each under its image; they are at most 16, as the list that is made holds no more.
fn cut_off(images: &[Image], numbers: &[Number]) -> Remainders
    requires { (length images.now ≤ max_columns) × AllPack images.now numbers.now }
    ensures { cut_columns 0 images.now numbers.now ≡ done result.items }
{
    let mut remainders = Remainders::new();
    for (image, number) in images.iter().zip(numbers) {
        let fitting = Fitting {
            image: *image,
            number: *number,
        };
        remainders.push(fitting.remainder());
    }
    remainders
}

// Packs a list under a contents into a buffer, as pack does, and gives what truncation cut off each number; refused as pack is.
#[tactic(auto, using(crate::proofs::RemainderLaws::under_left_refused, crate::proofs::RemainderLaws::under_found), unfolding(decimal::specs::Answer::mapped, crate::specs::Answers::stored_in, crate::specs::Answers::sized))]
pub fn pack_with_remainders(
    contents: &Contents,
    numbers: &[Number],
    buffer: &mut [u8],
) -> Result<Packed, Refusal>
    ensures answer { mapped size_of (meaning result) ≡ sized (packing_under contents.now.images numbers.now (length buffer.old)) }
    ensures bytes { buffer.new ≡ stored_in (packing_under contents.now.images numbers.now (length buffer.old)) buffer.old }
    ensures remainders { mapped remainders_of (meaning result) ≡ remainders_under contents.now.images numbers.now (length buffer.old) }
{
    let size = pack(contents, numbers, buffer)?;
    Ok(Packed {
        size,
        remainders: cut_off(contents.images(), numbers),
    })
}
