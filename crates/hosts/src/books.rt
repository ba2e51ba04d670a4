ghost use Rattle.std.specs.Prelude.{◌≡◌, ◌≤◌, ◌++◌, length, take, drop};
ghost use Rattle.airs.specs.Boards.{board_lanes};
ghost use Rattle.airs.specs.Lanes.{lane, count_of};
ghost use Rattle.hosts.specs.Ends.{too_short, heard_lanes, counted_over};

use crate::end_words::END_WORDS;
use crate::refusing::named_site;
use airs::{Air, Board};
use rounds::Notebook;

/// How many words a notebook has. Two ranges below name the number itself: with this name their proofs did not close.
const BOOK_WORDS: usize = 325;

/// How many words a host lends for a lane: their number and all that a board's lane can take.
pub(crate) const LANE_ROOM: usize = 121;

// Whether what a host lends for a state or a notebook is too short.
pub(crate) fn is_short(state: &[u32], notebook: &[u32]) -> bool
    ensures { result ≡ too_short state.now notebook.now }
{
    state.len() < END_WORDS || notebook.len() < BOOK_WORDS
}

// The notebook of a host's words.
pub(crate) fn notebook_of(words: &[u32]) -> Notebook
    requires { 325 ≤ length words.now }
    ensures { result.words ≡ take 325 words.now }
{
    let mut book = Notebook::new();
    let kept = &words[0..325];
    for (place, word) in kept.iter().enumerate() {
        let _ = book.set_word(place, *word);
    }
    book
}

// Puts the words of a notebook over a host's.
pub(crate) fn write_book(book: &Notebook, words: &mut [u32])
    requires { 325 ≤ length words.old }
    ensures { words.new ≡ book.now.words ++ drop 325 words.old }
{
    words[0..325].copy_from_slice(book.words());
}

// A board with the pairs that a host has heard, in their order; what the board refuses is left out.
pub(crate) fn board_of(heard: &[u32]) -> Board
    ensures { board_lanes result ≡ heard_lanes heard.now }
{
    let mut board = Board::new();
    for pair in heard.chunks_exact(2) {
        let _ = board.put(named_site(pair[0]), pair[1]);
    }
    board
}

// Puts the number of a lane's words, and the words, over a host's.
pub(crate) fn write_lane(board: &Board, site: u8, words: &mut [u32])
    requires { (count_of (board_lanes board.now) site ≤ 120) × (121 ≤ length words.old) }
    ensures { words.new ≡ counted_over (lane (board_lanes board.now) site) words.old }
{
    let count = board.count(site);
    words[0] = count as u32;
    let room = &mut words[1..count + 1];
    for (k, word) in room.iter_mut().enumerate() {
        if let Some(put) = board.at(site, k) {
            *word = put;
        }
    }
}
