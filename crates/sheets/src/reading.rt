ghost use Rattle.std.specs.Prelude.{◌≡◌, length};
ghost use Rattle.std.specs.Option.{option_map};
ghost use Rattle.sheets.specs.Items.{part_of, words_of, item_at, Opens, ReadingLaw, ReadsNext, words_left};

use crate::fans::run_at;
use crate::parts::{EDGE, FAN, HEAD, rogue_limit_of, site_count_of, sites_of_edge};
use crate::reader::{Item, Reader};
use crate::refusal::SheetRefusal;
use crate::rows::check;
use words::fields::kind_of;

impl<'a> Reader<'a> {
    /// A reader before the first word of a sheet; refused as the check of rows 1 to 6 refuses it.
    pub fn open(words: &'a [u32]) -> Result<Reader<'a>, SheetRefusal>
        ensures answer { Opens words.now result }
        // what is read from it is the whole sheet, in lawful items
        ensures reading { ReadingLaw words.now }
    {
        check(words)?;
        Ok(Reader { words, at: 0 })
    }
}

impl<'a> Item<'a> {
    // How many words it is written as.
    fn word_count(&self) -> usize
        ensures { result ≡ length (words_of (part_of self.now)) }
    {
        match self {
            Item::Fan { run, .. } => run.len(),
            _ => 1,
        }
    }

    // The item at a place of some words, by the kind of the word there.
    fn at(words: &'a [u32], place: usize) -> Option<Item<'a>>
        ensures { option_map part_of result ≡ item_at words.now place }
    {
        let word = *words.get(place)?;
        Some(match kind_of(word) {
            HEAD => Item::Head {
                place,
                sites: site_count_of(word),
                rogues: rogue_limit_of(word),
            },
            EDGE => {
                let (low, high) = sites_of_edge(word);
                Item::Edge { place, low, high }
            }
            FAN => Item::Fan {
                place,
                run: run_at(words, place),
            },
            _ => Item::Route { place, word },
        })
    }
}

impl<'a> Iterator for Reader<'a> {
    type Item = Item<'a>;

    ghost next_gives = { ReadsNext };

    ghost remaining = { words_left };

    /// The item at the reader's place, behind which it then stands; past the end nothing.
    fn next(&mut self) -> Option<Item<'a>> {
        let item = Item::at(self.words, self.at)?;
        self.at += item.word_count();
        Some(item)
    }
}
