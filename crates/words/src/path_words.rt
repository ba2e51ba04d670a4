ghost use Rattle.std.specs.Prelude.{◌≡◌, ℕ, IfOk, Some, None};
ghost use Rattle.words.specs.Words.{Meaning, meaning, meaning_of, word_of, sites_of, Reads, MakesWord};
ghost use Rattle.words.specs.Examples.{WordExamples};

use crate::fields;
use crate::kind::Kind;
use crate::path::{Path, PathWord};
use sites::Refusal;

impl PathWord {
    /// A path with a kind and a tail; refused with 5 where they do not suit each other.
    pub fn new(kind: Kind, path: Path, tail: u8) -> Result<PathWord, Refusal>
        ensures { MakesWord (record { kind = kind; sites = sites_of path; tail = tail }) result }
    {
        if !kind.suits(path.len, tail) {
            return Err(Refusal::Path);
        }
        Ok(PathWord { kind, path, tail })
    }

    /// What a word says; refused with 5 where it is unlawful.
    pub fn read(word: u32) -> Result<PathWord, Refusal>
        ensures answer { Reads word result }
        // written again, it is the same word
        ensures back { IfOk result (λ p. word_of (meaning_of p) ≡ word) }
        // no other word says the same
        ensures alone { IfOk result (λ p. (other : ℕ) → meaning other ≡ meaning word → other ≡ word) }
        ensures examples { WordExamples }
    {
        let kind = Kind::try_from(fields::kind_of(word))?;
        let count = (word / 0x200_0000 % 8) as usize;
        let tail = (word % 16) as u8;
        if word / 16 % 8 != 0 || !kind.suits(count, tail) {
            return Err(Refusal::Path);
        }
        let path = Path::from_fields(fields::sites_in(word), count)?;
        Ok(PathWord { kind, path, tail })
    }

    /// The word that says it.
    pub fn write(&self) -> u32
        ensures value { result ≡ word_of (meaning_of self.now) }
        // read again, it is the same kind, path and tail
        ensures back { meaning result ≡ Some (meaning_of self.now) }
    {
        let top = self.kind.number() * 8 + self.path.len as u32;
        fields::packed(top, &self.path.sites, self.tail)
    }

    /// What it is for.
    pub fn kind(&self) -> Kind
        ensures { result ≡ self.now.kind }
    {
        self.kind
    }

    /// The sites that it names, in their order.
    pub fn path(&self) -> Path
        ensures { result ≡ self.now.path }
    {
        self.path
    }

    /// The bit of a flood word; 0 at any other kind.
    pub fn tail(&self) -> u8
        ensures { result ≡ self.now.tail }
    {
        self.tail
    }
}
