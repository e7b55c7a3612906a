// The table of contents: a byte with the count of columns, then per column a length byte and the image.
ghost use Rattle.std.specs.Prelude.{◌≡◌, length, drop, IfOk};
ghost use Rattle.decimal.specs.Answer.{meaning, mapped};
ghost use Rattle.codec.specs.Columns.{body_size, Sound};
ghost use Rattle.codec.specs.Contents.{read_column, column_length, read_contents, read_alone, check_count};

use crate::columns::column_size;
use crate::lists::{Images, MAX_COLUMNS};
use decimal::{Image, Refusal, read_image};
use std::marker::Model;

// A contents that was read: its images, its own length in bytes, and the length of a body under it.
#[derive(Clone, Copy, Debug, PartialEq, Eq, Hash)]
pub struct Contents {
    images: Images,
    pub(crate) size: usize,
    pub(crate) body: usize,
}

impl Model for Contents {
    ghost use Rattle.std.specs.Prelude.{◌≡◌, length};
    ghost use Rattle.codec.specs.Columns.{body_size, Sound};
    ghost use Rattle.codec.specs.Contents.{Table, contents_bytes};

    ghost Value = { Table };

    ghost view = { λ c. record { images = c.images.items; size = c.size } };

    ghost invariant = { λ c. Sound c.images.items × (c.size ≡ length (contents_bytes c.images.items)) × (c.body ≡ body_size c.images.items) };

    ghost inverse = { λ t. record { images = record { items = t.images }; size = t.size; body = body_size t.images } };
}

// Whether a contents can have so many columns: refused with 10.
#[tactic(auto, unfolding(crate::specs::Contents::check_count))]
fn check_count(count: usize) -> Result<(), Refusal>
    ensures { meaning result ≡ check_count count }
{
    if (1..=MAX_COLUMNS).contains(&count) {
        Ok(())
    } else {
        Err(Refusal::WRONG_COUNT)
    }
}

// The image of the column that bytes begin with, and the bytes behind it: 11 where they end inside it, then 1 and 2 for its image.
#[tactic(auto, unfolding(decimal::specs::Answer::mapped, crate::specs::Contents::read_column, crate::specs::Contents::column_length))]
fn read_column(bytes: &[u8], column: usize) -> Result<(Image, &[u8]), Refusal>
    ensures image { mapped (λ read. read.0) (meaning result) ≡ read_column column bytes.now }
    ensures rest { IfOk result (λ read. read.1.now ≡ drop (column_length bytes.now) bytes.now) }
{
    let Some((length, columns)) = bytes.split_first() else {
        return Err(Refusal::WRONG_LENGTH);
    };
    let Some((image, rest)) = columns.split_at_checked(usize::from(*length)) else {
        return Err(Refusal::WRONG_LENGTH);
    };
    Ok((read_image(image, column)?, rest))
}

impl Contents {
    // The contents at the front of bytes; bytes behind it are allowed. Refused with 11, 10, then from the left 11, 1, 2.
    #[tactic(auto, using(crate::proofs::ContentsLaws::count_within, crate::proofs::ContentsLaws::contents_counted, crate::proofs::ContentsLaws::contents_stopped, crate::proofs::ContentsLaws::reading_refused, crate::proofs::ContentsLaws::reading_length, crate::proofs::ContentsLaws::column_checked, crate::proofs::ContentsLaws::column_few), unfolding(decimal::specs::Answer::mapped, crate::specs::Contents::read_contents))]
    pub fn read_front(bytes: &[u8]) -> Result<Contents, Refusal>
        ensures { meaning result ≡ read_contents bytes.now }
    {
        let Some((first, columns)) = bytes.split_first() else {
            return Err(Refusal::WRONG_LENGTH);
        };
        let count = usize::from(*first);
        check_count(count)?;
        let mut images = Images::new();
        // The length of a body is summed on the way.
        let mut body = 0;
        let mut rest = columns;
        for column in 0..count {
            let (image, behind) = read_column(rest, column)?;
            images.push(image);
            body += column_size(image);
            rest = behind;
        }
        Ok(Contents {
            images,
            size: bytes.len() - rest.len(),
            body,
        })
    }

    // A contents lent alone: as read, and refused with 11 where bytes go on behind it.
    #[tactic(auto, using(crate::proofs::ContentsLaws::alone_first, crate::proofs::ContentsLaws::alone_same, crate::proofs::ContentsLaws::alone_more), unfolding(decimal::specs::Answer::mapped))]
    pub fn read(bytes: &[u8]) -> Result<Contents, Refusal>
        ensures { meaning result ≡ read_alone bytes.now }
    {
        let contents = Contents::read_front(bytes)?;
        if contents.size == bytes.len() {
            Ok(contents)
        } else {
            Err(Refusal::WRONG_LENGTH)
        }
    }

    // Its images.
    pub fn images(&self) -> &[Image]
        ensures images { result.now ≡ self.now.images }
        ensures sound { Sound self.now.images }
    {
        &self.images
    }

    // Its own length in bytes.
    pub fn size(&self) -> usize
        ensures { result ≡ self.now.size }
    {
        self.size
    }

    // The length of a body under it.
    pub fn body_size(&self) -> usize
        ensures { result ≡ body_size (self.now.images) }
    {
        self.body
    }
}
