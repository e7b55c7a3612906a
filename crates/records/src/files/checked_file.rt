// Record files whose bodies can all be read.
ghost use Rattle.std.specs.Prelude.{◌≡◌, IfOk, drop};
ghost use Rattle.std.specs.Slice.Iter.{chunks_exact_rest, chunks_exact_size};
ghost use Rattle.decimal.specs.Answer.{done, meaning, mapped};
ghost use Rattle.codec.specs.Columns.{body_size};
ghost use Rattle.codec.specs.Bodies.{check_each};
ghost use Rattle.records.specs.Files.RecordFile.{record_count, bodies_in};
ghost use Rattle.records.specs.Files.Tables.{table_in, bytes_in};
ghost use Rattle.records.specs.Files.Listing.{checked_file};

use crate::files::record_file::RecordFile;
use codec::Contents;
use decimal::Refusal;
use std::slice::ChunksExact;

// A record file of which every body was read.
#[derive(Debug, Drop)]
pub struct CheckedFile<'a> {
    file: RecordFile<'a>,
    pub ghost checked: { checked_file (bytes_in file) ≡ done (table_in file) },
}

impl<'a> RecordFile<'a> {
    ghost use Rattle.records.specs.Files.CheckedFile.{checked_table, checked_bytes};

    // The file with all its bodies read: refused with 7 and the column within the first bad record.
    #[tactic(auto, using(crate::proofs::FileProofs::CheckedLaws::bodies_bad, crate::proofs::FileProofs::CheckedLaws::bodies_good), unfolding(decimal::specs::Answer::mapped))]
    pub fn checked(self) -> Result<CheckedFile<'a>, Refusal>
        ensures answer { mapped checked_table (meaning result) ≡ checked_file (bytes_in self.entry) }
        ensures bytes { IfOk result (λ checked. checked_bytes checked ≡ bytes_in self.entry) }
    {
        self.held.contents.check_bodies(self.all_bodies())?;
        Ok(CheckedFile { file: self })
    }
}

impl<'a> CheckedFile<'a> {
    ghost use Rattle.records.specs.Files.CheckedFile.{checked_table, checked_bytes};

    // Bytes read as a file, and all its bodies: refused as the file is, then with 7 and the column within the first bad record.
    #[tactic(auto, using(crate::proofs::FileProofs::RecordLinesLaws::checked_refused), unfolding(decimal::specs::Answer::mapped))]
    pub fn read(bytes: &'a [u8]) -> Result<CheckedFile<'a>, Refusal>
        ensures answer { mapped checked_table (meaning result) ≡ checked_file bytes.now }
        ensures bytes { IfOk result (λ checked. checked_bytes checked ≡ bytes.now) }
    {
        RecordFile::read(bytes)?.checked()
    }

    // Its contents.
    pub fn contents(&self) -> &Contents
        ensures contents { result.now ≡ checked_table self.now }
        ensures checked { checked_file (checked_bytes self.now) ≡ done (checked_table self.now) }
    {
        &self.file.held.contents
    }

    // The count of its records.
    pub fn count(&self) -> usize
        ensures { result ≡ record_count (checked_table self.now) (checked_bytes self.now) }
    {
        self.file.count()
    }

    // Its bodies, from the first: each can be read.
    #[tactic(auto, using(crate::proofs::FileProofs::CheckedLaws::all_read))]
    pub fn bodies(&self) -> ChunksExact<'a, u8>
        ensures rest { chunks_exact_rest result ≡ drop (checked_table self.now).size (checked_bytes self.now) }
        ensures size { chunks_exact_size result ≡ body_size (checked_table self.now).images }
        ensures read { check_each (checked_table self.now).images (bodies_in (checked_table self.now) (checked_bytes self.now)) ≡ done tt }
    {
        self.file.bodies()
    }
}
