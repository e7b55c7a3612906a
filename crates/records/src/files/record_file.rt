// Record files: the table of contents, then the bodies without gaps (document 01: Record file).
ghost use Rattle.std.specs.Prelude.{◌≡◌, ◌-◌, ◌≤◌, IfOk, length, drop};
ghost use Rattle.std.specs.Slice.Iter.{chunks_exact_rest, chunks_exact_size};
ghost use Rattle.decimal.specs.Answer.{done, meaning, mapped};
ghost use Rattle.codec.specs.Answers.{stored_in, sized};
ghost use Rattle.codec.specs.Columns.{body_size};
ghost use Rattle.codec.specs.Contents.{read_contents};
ghost use Rattle.codec.specs.Packing.{packing_under};
ghost use Rattle.records.specs.Files.RecordFile.{
  starting_file,
  read_file,
  record_count,
  read_used,
  added,
  new_length,
  written_behind,
  shown,
  shown_bodies,
  shown_part,
  now_of,
  range_of,
};

use codec::{Contents, pack};
use decimal::{Number, Reason, Refusal};
use std::marker::Model;
use std::ops::Range;
use std::slice::ChunksExact;

// The contents of a file, in a struct that is not Copy: where a struct with a & holds a Copy value with a model, no result of it can be
// passed on by ?, here and in callers.
#[derive(Debug, Drop)]
pub(crate) struct HeldContents {
    pub(crate) contents: Contents,
}

impl Model for HeldContents {
    ghost use Rattle.codec.specs.Contents.{Table};

    ghost Value = { Table };

    ghost view = { λ held. held.contents };
}

// A record file that was read: its contents, and its bytes, which are whole bodies behind the contents.
#[derive(Debug, Drop)]
pub struct RecordFile<'a> {
    pub(crate) held: HeldContents,
    file: &'a [u8],
    pub ghost reads: { read_file file.now ≡ done held },
}

impl<'a> RecordFile<'a> {
    ghost use Rattle.records.specs.Files.Tables.{table_in, bytes_in};

    // A file of which the contents was read already: refused with 11 where a last body is incomplete.
    #[tactic(auto, using(crate::proofs::FileProofs::FileLaws::size_within, crate::proofs::FileProofs::FileLaws::body_some, crate::proofs::FileProofs::FileLaws::file_whole, crate::proofs::FileProofs::FileLaws::file_torn), unfolding(decimal::specs::Answer::mapped))]
    pub(crate) fn behind_contents(
        contents: Contents,
        file: &'a [u8],
    ) -> Result<RecordFile<'a>, Refusal>
        requires { done contents ≡ read_contents file.now }
        ensures answer { mapped table_in (meaning result) ≡ read_file file.now }
        ensures bytes { IfOk result (λ read. bytes_in read ≡ file.now) }
    {
        if (file.len() - contents.size()) % contents.body_size() == 0 {
            let held = HeldContents { contents };
            Ok(RecordFile { held, file })
        } else {
            Err(Refusal::WRONG_LENGTH)
        }
    }

    // Bytes read as a file: refused as the contents is, then with 11 where a last body is incomplete.
    #[tactic(auto, using(crate::proofs::FileProofs::FileLaws::file_first), unfolding(decimal::specs::Answer::mapped))]
    pub fn read(file: &'a [u8]) -> Result<RecordFile<'a>, Refusal>
        ensures answer { mapped table_in (meaning result) ≡ read_file file.now }
        ensures bytes { IfOk result (λ read. bytes_in read ≡ file.now) }
    {
        RecordFile::behind_contents(Contents::read_front(file)?, file)
    }

    // Its contents.
    pub fn contents(&self) -> &Contents
        ensures { result.now ≡ table_in self.now }
    {
        &self.held.contents
    }

    // Its contents alone; the bytes are lent no more.
    pub(crate) fn into_contents(self) -> Contents
        ensures { result ≡ table_in self.entry }
    {
        self.held.contents
    }

    // The count of its records.
    #[tactic(auto, using(crate::proofs::FileProofs::HeldLaws::held_within, crate::proofs::FileProofs::HeldLaws::held_some), unfolding(crate::specs::Files::RecordFile::record_count))]
    pub fn count(&self) -> usize
        ensures { result ≡ record_count (table_in self.now) (bytes_in self.now) }
    {
        (self.file.len() - self.held.contents.size()) / self.held.contents.body_size()
    }

    // The bytes of its bodies, from the first body.
    #[tactic(auto, using(crate::proofs::FileProofs::HeldLaws::held_within))]
    pub(crate) fn all_bodies(&self) -> &'a [u8]
        ensures { result.now ≡ drop (table_in self.now).size (bytes_in self.now) }
    {
        &self.file[self.held.contents.size()..]
    }

    // Its bodies, from the first.
    #[tactic(auto, using(crate::proofs::FileProofs::HeldLaws::held_within, crate::proofs::FileProofs::HeldLaws::held_some))]
    pub fn bodies(&self) -> ChunksExact<'a, u8>
        ensures rest { chunks_exact_rest result ≡ drop (table_in self.now).size (bytes_in self.now) }
        ensures size { chunks_exact_size result ≡ body_size (table_in self.now).images }
    {
        self.all_bodies()
            .chunks_exact(self.held.contents.body_size())
    }

    // Where the body of a record stands in the file, by its number from 0: refused with 12.
    #[tactic(auto, using(crate::proofs::FileProofs::HeldLaws::held_inside, crate::proofs::FileProofs::HeldLaws::place_none, crate::proofs::FileProofs::HeldLaws::place_there), unfolding(decimal::specs::Answer::mapped))]
    pub fn place(&self, index: usize) -> Result<Range<usize>, Refusal>
        ensures { meaning result ≡ mapped range_of (shown (bytes_in self.now) index) }
    {
        if self.count() <= index {
            return Err(Refusal {
                reason: Reason::NoRecord,
                place: 0,
            });
        }
        let size = self.held.contents.body_size();
        let start = self.held.contents.size() + index * size;
        Ok(start..start + size)
    }

    // The body of a record, by its number from 0: refused with 12.
    #[tactic(auto, unfolding(decimal::specs::Answer::mapped))]
    pub fn body(&self, index: usize) -> Result<&'a [u8], Refusal>
        ensures { mapped now_of (meaning result) ≡ shown_bodies (bytes_in self.now) index }
    {
        let place = self.place(index)?;
        Ok(&self.file[place])
    }
}

// Writes a contents lent alone into a buffer: a file without records. The bytes behind it stay.
// Refused as the contents is, last with 6; then no byte changes.
pub fn write_contents(contents: &[u8], buffer: &mut [u8]) -> Result<usize, Refusal>
    ensures answer { meaning result ≡ sized (starting_file contents.now (length buffer.old)) }
    ensures bytes { buffer.new ≡ stored_in (starting_file contents.now (length buffer.old)) buffer.old }
{
    Contents::read(contents)?;
    let size = contents.len();
    if buffer.len() < size {
        return Err(Refusal::NO_ROOM);
    }
    buffer[..size].copy_from_slice(contents);
    Ok(size)
}

// The contents of the file in the first bytes of a buffer, behind which a record can be added: refused with 11 for a used length past
// the buffer, then as the file is.
#[tactic(auto, unfolding(decimal::specs::Answer::mapped, crate::specs::Files::RecordFile::read_used))]
pub(crate) fn read_used(buffer: &[u8], used: usize) -> Result<Contents, Refusal>
    ensures { meaning result ≡ read_used buffer.now used }
{
    if buffer.len() < used {
        return Err(Refusal::WRONG_LENGTH);
    }
    Ok(RecordFile::read(&buffer[..used])?.into_contents())
}

// Packs a list under a contents into a buffer behind a used length, and gives the used length with the body: all other bytes stay.
// Refused as packing is, last with 6; then no byte changes.
pub(crate) fn pack_behind(
    contents: &Contents,
    used: usize,
    numbers: &[Number],
    buffer: &mut [u8],
) -> Result<usize, Refusal>
    requires { used ≤ length buffer.old }
    ensures answer { meaning result ≡ new_length used (packing_under contents.now.images numbers.now (length buffer.old - used)) }
    ensures bytes { buffer.new ≡ written_behind used (packing_under contents.now.images numbers.now (length buffer.old - used)) buffer.old }
{
    let size = pack(contents, numbers, &mut buffer[used..])?;
    Ok(used + size)
}

// Adds a record to the file in the first bytes of a buffer, and gives the used length with it: the body stands behind them, and all other
// bytes stay. Refused with 11 for the used length, as the file is, with 10, items from the left with 3, 4, 5 and the column, last with 6.
#[tactic(auto, using(crate::proofs::FileProofs::FileLaws::adds_refused, crate::proofs::FileProofs::FileLaws::adds_nothing, crate::proofs::FileProofs::FileLaws::adds_within, crate::proofs::FileProofs::FileLaws::adds_under))]
pub fn add(used: usize, numbers: &[Number], buffer: &mut [u8]) -> Result<usize, Refusal>
    ensures answer { meaning result ≡ new_length used (added buffer.old used numbers.now) }
    ensures bytes { buffer.new ≡ written_behind used (added buffer.old used numbers.now) buffer.old }
{
    // The used length stands beside the buffer: document 01's call.
    let contents = read_used(&*buffer, used)?;
    pack_behind(&contents, used, numbers, buffer)
}

// The body of a record of a file, by its number from 0: refused as the file is, then with 12.
#[tactic(auto, using(crate::proofs::FileProofs::FileLaws::shows_refused), unfolding(decimal::specs::Answer::mapped))]
pub fn show(file: &[u8], index: usize) -> Result<&[u8], Refusal>
    ensures answer { mapped now_of (meaning result) ≡ shown_bodies file.now index }
    ensures part { IfOk result (λ body. body.now ≡ shown_part file.now index) }
{
    RecordFile::read(file)?.body(index)
}
