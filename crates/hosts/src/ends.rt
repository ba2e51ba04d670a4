ghost use Rattle.std.specs.Prelude.{◌≡◌, ◌≤◌, length};
ghost use Rattle.hosts.specs.Ends.{end_at, kept_over, bit_in, round_in, weighing_in, done_kept, words_kept, WordsFit};
ghost use Rattle.hosts.specs.Restored.{numbers_told, round_made, weighing_made};

use crate::end_words::{END_WORDS, EndWords, Tag};
use crate::refused::HostRefusal;
use single_end::{Numbers, Round, Weighing};

// The bit that a host names by a word: only 0 and 1 are bits.
pub(crate) fn named_bit(word: u32) -> Result<bool, HostRefusal>
    ensures { result ≡ bit_in word }
{
    match word {
        0 => Ok(false),
        1 => Ok(true),
        _ => Err(HostRefusal::NoState),
    }
}

impl EndWords {
    // The first seven of some words, by index: callers have tested the length, and a pattern would need a case for fewer again.
    pub(crate) fn read(words: &[u32]) -> EndWords
        requires { 7 ≤ length words.now }
        ensures { result ≡ end_at words.now }
    {
        EndWords {
            tag: words[0],
            site: words[1],
            bit: words[2],
            phase: words[3],
            round: words[4],
            n: words[5],
            f: words[6],
        }
    }

    // Puts these over the first seven of some words.
    pub(crate) fn write(self, words: &mut [u32])
        requires { 7 ≤ length words.old }
        ensures { words.new ≡ kept_over self words.old }
    {
        let seven = [
            self.tag, self.site, self.bit, self.phase, self.round, self.n, self.f,
        ];
        words[..END_WORDS].copy_from_slice(&seven);
    }

    // The numbers of the state that they tell, if it has this tag: the engine keeps site, n and f in 8 bits.
    fn numbers(self, tag: Tag) -> Result<Numbers, HostRefusal>
        ensures { result ≡ numbers_told tag self }
    {
        if self.tag != tag as u32 {
            return Err(HostRefusal::NoState);
        }
        Ok(Numbers {
            site: u8::try_from(self.site)?,
            bit: named_bit(self.bit)?,
            phase: self.phase as usize,
            round: self.round as usize,
            n: u8::try_from(self.n)?,
            f: u8::try_from(self.f)?,
        })
    }

    // The round that they tell.
    pub(crate) fn round(self) -> Result<Round, HostRefusal>
        ensures { round_made result ≡ round_in self }
    {
        Round::restored(self.numbers(Tag::Round)?).ok_or(HostRefusal::NoState)
    }

    // The weighing that they tell.
    pub(crate) fn weighing(self) -> Result<Weighing, HostRefusal>
        ensures { weighing_made result ≡ weighing_in self }
    {
        Weighing::restored(self.numbers(Tag::Weighing)?).ok_or(HostRefusal::NoState)
    }

    // The words of a state that has some numbers.
    pub(crate) fn of(tag: Tag, numbers: Numbers) -> EndWords
        requires { WordsFit numbers }
        ensures { result ≡ words_kept tag numbers }
    {
        EndWords {
            tag: tag as u32,
            site: numbers.site as u32,
            bit: numbers.bit as u32,
            phase: numbers.phase as u32,
            round: numbers.round as u32,
            n: numbers.n as u32,
            f: numbers.f as u32,
        }
    }

    // The words of an end that is done, with its bit. A host's state has seven words at any time, so the other six are told as 0.
    pub(crate) fn of_done(bit: bool) -> EndWords
        ensures { result ≡ done_kept bit }
    {
        EndWords::of(
            Tag::Done,
            Numbers {
                site: 0,
                bit,
                phase: 0,
                round: 0,
                n: 0,
                f: 0,
            },
        )
    }
}
