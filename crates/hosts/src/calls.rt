ghost use Rattle.std.specs.Prelude.{◌≡◌};
ghost use Rattle.hosts.specs.Calls.{call_of, pair_in};

use crate::refused::HostRefusal;
use crate::refusing::named_site;
use runs::Call;

// The call that a code, a site and a word name; nothing for another code. Hosts name a call by a number.
pub(crate) fn named_call(code: u32, site: u32, word: u32) -> Option<Call>
    ensures { result ≡ call_of code site word }
{
    let site = named_site(site);
    match code {
        1 => Some(Call::Transmit { site, word }),
        2 => Some(Call::Speak { site }),
        3 => Some(Call::Turn),
        4 => Some(Call::Held { site }),
        5 => Some(Call::Decision { site }),
        6 => Some(Call::Recalled { site, word }),
        _ => None,
    }
}

// The two words of an answer: 0 and the value, or the refusal's number and 0.
pub(crate) fn in_words(answer: Result<u32, HostRefusal>) -> (u32, u32)
    ensures { record { number = result.0; value = result.1 } ≡ pair_in answer }
{
    match answer {
        Ok(value) => (0, value),
        Err(refusal) => (refusal.number(), 0),
    }
}
