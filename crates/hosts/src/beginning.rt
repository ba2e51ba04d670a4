ghost use Rattle.std.specs.Prelude.{◌≡◌};
ghost use Rattle.hosts.specs.Answered.{answered as answered_by, left_by};
ghost use Rattle.hosts.specs.Ends.{begin_on, begin_outcome, kept_over};

use crate::end_words::{END_WORDS, EndWords, Tag};
use crate::ends::named_bit;
use crate::loading::loaded;
use crate::refused::HostRefusal;
use crate::refusing::{answered, named_site};
use single_end::Round;

// The words of an end that begins.
fn begun(sheet: &[u32], site: u32, bit: u32) -> Result<EndWords, HostRefusal>
    ensures { result ≡ begin_on sheet.now site bit }
{
    let plan = loaded(sheet)?;
    let bit = named_bit(bit)?;
    let round = Round::begin(&plan, named_site(site), bit)?;
    Ok(EndWords::of(Tag::Round, round.saved()))
}

// Begins an end and keeps it in a host's words.
fn begin(sheet: &[u32], site: u32, bit: u32, state: &mut [u32]) -> Result<(), HostRefusal>
    ensures answer { answered_by result ≡ answered_by (begin_outcome sheet.now site bit state.old) }
    ensures state { state.new ≡ left_by (begin_outcome sheet.now site bit state.old) (λ w. kept_over w state.old) state.old }
{
    if state.len() < END_WORDS {
        return Err(HostRefusal::TooShort);
    }
    begun(sheet, site, bit)?.write(state);
    Ok(())
}

/// Begins a single end for a site with a bit, and puts its seven words into `state`.
#[unsafe(no_mangle)]
pub extern "C" fn rolgevin_end_begin(sheet: &[u32], site: u32, bit: u32, state: &mut [u32]) -> u32
    ensures answer { result ≡ answered_by (begin_outcome sheet.now site bit state.old) }
    ensures state { state.new ≡ left_by (begin_outcome sheet.now site bit state.old) (λ w. kept_over w state.old) state.old }
{
    answered(begin(sheet, site, bit, state))
}
