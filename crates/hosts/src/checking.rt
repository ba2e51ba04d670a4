ghost use Rattle.std.specs.Prelude.{◌≡◌, ◌^◌, ◌<◌, slice_set};
ghost use Rattle.std.specs.Result.{ForErr};
ghost use Rattle.hosts.specs.Answered.{answered as answered_by};
ghost use Rattle.hosts.specs.Sheets.{placeless as without_place, place_in, checked, checked_place};

use crate::refused::HostRefusal;
use crate::refusing::answered;
use plans::judge;
use sheets::SheetRefusal;

// What the check of a sheet answers, without the place.
fn placeless(judged: Result<(), SheetRefusal>) -> Result<(), HostRefusal>
    ensures { result ≡ without_place judged }
{
    Ok(judged?)
}

// The place of a sheet's refusal; 0 where there is none.
fn refused_place(judged: Result<(), SheetRefusal>) -> u32
    requires { ForErr judged (λ e. e.place < 2 ^ 32) }
    ensures { result ≡ place_in judged }
{
    match judged {
        Ok(()) => 0,
        Err(refused) => refused.place as u32,
    }
}

/// Checks a sheet: 0 where it is complete, else the refusal's number. Where there is room for it, the first word of
/// `place` is the refusal's place, and 0 where there is none; the other words stay.
#[unsafe(no_mangle)]
pub extern "C" fn rolgevin_check(sheet: &[u32], place: &mut [u32]) -> u32
    ensures answer { result ≡ answered_by (checked sheet.now) }
    ensures place { place.new ≡ slice_set place.old 0 (checked_place sheet.now) }
{
    let judged = judge(sheet);
    if place.len() > 0 {
        place[0] = refused_place(judged);
    }
    answered(placeless(judged))
}
