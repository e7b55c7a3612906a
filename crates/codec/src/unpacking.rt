// Reading a body back (document 01: Packed bodies).
ghost use Rattle.std.specs.Prelude.{◌≡◌, length};
ghost use Rattle.decimal.specs.Answer.{meaning, mapped, checked_only, given};
ghost use Rattle.codec.specs.Lists.{items_of};
ghost use Rattle.codec.specs.Columns.{column_size, Checked};
ghost use Rattle.codec.specs.Unpacking.{unpack_column, unpack_body};

use crate::columns::column_size;
use crate::contents::Contents;
use crate::cut::number_of_cut;
use crate::lists::Numbers;
use crate::reading::read_column;
use decimal::{Image, Number, Refusal};

// The number of a column's bytes; refused with 7 and the column.
fn unpack_column(image: Image, bytes: &[u8], column: usize) -> Result<Number, Refusal>
    requires { Checked image × (length bytes.now ≡ column_size image) }
    ensures { meaning result ≡ unpack_column column image bytes.now }
{
    let cut = read_column(image, bytes, column)?;
    Ok(number_of_cut(&cut))
}

impl Contents {
    // Reads the numbers of a body into a list, in place of what it held; the list is empty where the body is refused, as by unpack.
    #[tactic(auto, using(crate::proofs::TableLaws::table_column, crate::proofs::UnpackLaws::under_other, crate::proofs::UnpackLaws::under_columns, crate::proofs::UnpackLaws::columns_start, crate::proofs::UnpackLaws::column_inside, crate::proofs::UnpackLaws::columns_refused, crate::proofs::UnpackLaws::columns_end), unfolding(decimal::specs::Answer::checked_only, decimal::specs::Answer::given))]
    pub fn unpack_into(&self, body: &[u8], numbers: &mut Numbers) -> Result<(), Refusal>
        ensures answer { meaning result ≡ checked_only (unpack_body self.now.images body.now) }
        ensures list { numbers.new.items ≡ given (unpack_body self.now.images body.now) }
    {
        let images = self.images();
        numbers.clear();
        if body.len() != self.body_size() {
            return Err(Refusal::WRONG_LENGTH);
        }
        let mut rest = body;
        for (column, image) in images.iter().enumerate() {
            let (bytes, behind) = rest.split_at(column_size(*image));
            match unpack_column(*image, bytes, column) {
                Ok(number) => numbers.push(number),
                Err(refusal) => {
                    numbers.clear();
                    return Err(refusal);
                }
            }
            rest = behind;
        }
        Ok(())
    }

    // Whether a body can be read under this contents: refused as unpack refuses it. No number is made.
    #[tactic(auto, using(crate::proofs::TableLaws::table_column, crate::proofs::UnpackLaws::under_other, crate::proofs::UnpackLaws::under_columns, crate::proofs::UnpackLaws::checking_start, crate::proofs::UnpackLaws::checking_inside), unfolding(decimal::specs::Answer::checked_only))]
    pub(crate) fn check_body(&self, body: &[u8]) -> Result<(), Refusal>
        ensures { meaning result ≡ checked_only (unpack_body self.now.images body.now) }
    {
        let images = self.images();
        if body.len() != self.body_size() {
            return Err(Refusal::WRONG_LENGTH);
        }
        let mut rest = body;
        for (column, image) in images.iter().enumerate() {
            let (bytes, behind) = rest.split_at(column_size(*image));
            read_column(*image, bytes, column)?;
            rest = behind;
        }
        Ok(())
    }

    // The numbers of a body under this contents.
    // Refused with 11 for a body of another length, then from the left with 7 and the column.
    #[tactic(auto, using(crate::proofs::UnpackLaws::given_done, crate::proofs::UnpackLaws::given_refused), unfolding(decimal::specs::Answer::mapped))]
    pub fn unpack(&self, body: &[u8]) -> Result<Numbers, Refusal>
        ensures { mapped items_of (meaning result) ≡ unpack_body self.now.images body.now }
    {
        let mut numbers = Numbers::new();
        self.unpack_into(body, &mut numbers)?;
        Ok(numbers)
    }
}
