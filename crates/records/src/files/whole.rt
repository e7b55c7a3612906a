// A file cut short: the whole bodies of a file whose last one may be torn.
ghost use Rattle.std.specs.Prelude.{◌≡◌};
ghost use Rattle.decimal.specs.Answer.{meaning};
ghost use Rattle.records.specs.Files.WholeLength.{whole_length_of};

use codec::Contents;
use decimal::Refusal;

// The longest used length of a file whose bodies are whole, and how many bytes stand behind it: together they are the file's length.
#[derive(Clone, Copy, Debug, PartialEq, Eq, Hash)]
pub struct WholeLength {
    pub length: usize,
    pub behind: usize,
}

// The whole length of a file: of a file that is not torn its own length, with no byte behind it.
// Refused as the contents is: never with 11 for a last body that is incomplete.
#[tactic(auto, using(crate::proofs::FileProofs::FileLaws::size_within, crate::proofs::FileProofs::FileLaws::body_some, crate::proofs::FileProofs::WholeLengthLaws::whole_refused, crate::proofs::FileProofs::WholeLengthLaws::behind_within, crate::proofs::FileProofs::WholeLengthLaws::whole_read))]
pub fn whole_length(file: &[u8]) -> Result<WholeLength, Refusal>
    ensures { meaning result ≡ whole_length_of file.now }
{
    let contents = Contents::read_front(file)?;
    let behind = (file.len() - contents.size()) % contents.body_size();
    Ok(WholeLength {
        length: file.len() - behind,
        behind,
    })
}
