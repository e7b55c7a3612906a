// Whole bodies one behind the other, all of them checked, and the alpha texts of one (document 01: Record file).
ghost use Rattle.std.specs.Prelude.{◌≡◌, ◌%◌, true, suc, length};
ghost use Rattle.decimal.specs.Answer.{done, meaning, checked_only};
ghost use Rattle.codec.specs.Answers.{stored_in, sized};
ghost use Rattle.codec.specs.Alpha.{line_length};
ghost use Rattle.codec.specs.Bodies.{check_bodies, body_text, writing_texts};
ghost use Rattle.codec.specs.Columns.{body_size};
ghost use Rattle.codec.specs.Halves.{halves_of};
ghost use Rattle.codec.specs.Unpacking.{all_digits, unpack_body};

use crate::alpha_text::{text_length, write_column_text};
use crate::columns::column_size;
use crate::contents::Contents;
use crate::reading::{are_all_digits, is_readable};
use decimal::Refusal;

// The first block of a check has at most so many bodies.
const FIRST_BLOCK: usize = 32;

// And every block at most so many.
const LARGEST_BLOCK: usize = 512;

impl Contents {
    // Whether a body, none of whose half bytes is above 9, can be read.
    fn is_readable_body(&self, body: &[u8]) -> bool
        requires { (length body.now ≡ body_size self.now.images) × (all_digits (halves_of body.now) ≡ true) }
        ensures { result ≡ true → checked_only (unpack_body self.now.images body.now) ≡ done tt }
    {
        let images = self.images();
        let mut rest = body;
        for image in images {
            let (bytes, behind) = rest.split_at(column_size(*image));
            if !is_readable(*image, bytes) {
                return false;
            }
            rest = behind;
        }
        true
    }

    // Whether a body can be read: refused as unpack refuses it. Where no half byte is above 9, as digits tells, that is mostly seen at once.
    fn check_next(&self, body: &[u8], digits: bool) -> Result<(), Refusal>
        requires { (length body.now ≡ body_size self.now.images) × (digits ≡ true → all_digits (halves_of body.now) ≡ true) }
        ensures { meaning result ≡ checked_only (unpack_body self.now.images body.now) }
    {
        if digits && self.is_readable_body(body) {
            return Ok(());
        }
        self.check_body(body)
    }

    // Whether whole bodies can all be read: refused as the first bad one is. The half bytes of all of them are looked at first.
    #[tactic(auto, using(crate::proofs::FrontLaws::sound_body))]
    fn check_block(&self, bodies: &[u8]) -> Result<(), Refusal>
        requires { length bodies.now % body_size self.now.images ≡ 0 }
        ensures { meaning result ≡ check_bodies self.now.images bodies.now }
    {
        let digits = are_all_digits(bodies);
        for body in bodies.chunks_exact(self.body) {
            self.check_next(body, digits)?;
        }
        Ok(())
    }

    // Whether bytes are whole bodies that can all be read: refused with 11, then as the first bad body is. They go block by block, each at
    // most twice the one before it, so that little is looked at behind a bad body.
    #[tactic(auto, using(crate::proofs::FrontLaws::sound_body, crate::proofs::BodiesLaws::bodies_torn))]
    pub fn check_bodies(&self, bodies: &[u8]) -> Result<(), Refusal>
        ensures { meaning result ≡ check_bodies self.now.images bodies.now }
    {
        let is_torn = bodies.len() % self.body != 0;
        if is_torn {
            return Err(Refusal::WRONG_LENGTH);
        }
        let mut left = bodies;
        let mut count = bodies.len() / self.body;
        let mut most = FIRST_BLOCK;
        while 0 < count {
            let taken = count.min(most);
            let (block, behind) = left.split_at(taken * self.body);
            self.check_block(block)?;
            left = behind;
            count -= taken;
            most = (2 * taken).min(LARGEST_BLOCK);
        }
        Ok(())
    }
}

// A body that can be read under a contents.
#[derive(Clone, Copy)]
pub struct ReadBody<'a> {
    pub contents: &'a Contents,
    pub bytes: &'a [u8],
    pub ghost reads: { checked_only (unpack_body contents.now.images bytes.now) ≡ done tt },
}

impl ReadBody<'_> {
    // Writes the alpha texts of its numbers, parted by one blank, which are the whole target. No number is made. They go by a place, since
    // a proof knows no byte of parts that a loop takes off with split_at_mut.
    fn write(&self, target: &mut [u8])
        requires { suc (length target.old) ≡ line_length self.now.contents.now.images }
        ensures { done target.new ≡ body_text self.now.contents.now.images self.now.bytes.now }
    {
        let images = self.contents.images();
        let mut out = 0;
        let mut rest = self.bytes;
        for (column, image) in images.iter().enumerate() {
            if 0 < column {
                target[out] = b' ';
                out += 1;
            }
            let (bytes, behind) = rest.split_at(column_size(*image));
            let end = out + text_length(*image);
            write_column_text(*image, bytes, &mut target[out..end]);
            rest = behind;
            out = end;
        }
    }

    // Writes the alpha texts of its numbers, parted by one blank, at the buffer's start; the bytes behind them stay.
    // Refused with 6 alone; then no byte changes.
    #[tactic(auto, using(crate::proofs::BodyTextLaws::texts_size))]
    pub fn write_texts(&self, buffer: &mut [u8]) -> Result<usize, Refusal>
        ensures answer { meaning result ≡ sized (writing_texts self.now.contents.now.images self.now.bytes.now (length buffer.old)) }
        ensures bytes { buffer.new ≡ stored_in (writing_texts self.now.contents.now.images self.now.bytes.now (length buffer.old)) buffer.old }
    {
        let contents = self.contents;
        // A contents is one byte for the count, and per column a byte more than its text.
        let length = contents.size - 2;
        if buffer.len() < length {
            return Err(Refusal::NO_ROOM);
        }
        self.write(&mut buffer[..length]);
        Ok(length)
    }
}
