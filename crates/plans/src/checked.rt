ghost use Rattle.std.specs.Prelude.{◌≡◌, ◌<◌, length};
ghost use Rattle.sheets.specs.Parts.{site_count, rogue_limit};
ghost use Rattle.sheets.specs.Rows.{first_fan};

use sites::NetworkSize;

// The words of a sheet that passed rows 1 to 6, and how many sites and rogues its head tells.
#[derive(Clone, Copy)]
pub(crate) struct Checked<'a> {
    pub(crate) words: &'a [u32],
    pub(crate) size: NetworkSize,
    ghost some: { 0 < length words.now },
    ghost sites: { size.sites ≡ site_count words.now },
    ghost rogues: { size.rogues ≡ rogue_limit words.now },
}

// A sheet that passed rows 1 to 6, with the place of its first fan path, from which its fans stand one behind the other.
#[derive(Clone, Copy)]
pub(crate) struct Fans<'a> {
    pub(crate) sheet: Checked<'a>,
    pub(crate) start: usize,
    ghost first: { start ≡ first_fan sheet.words.now },
}
