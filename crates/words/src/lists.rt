// Lists between commas.
ghost use Rattle.std.specs.Prelude.{◌≡◌, ◌⊎◌, map, IfOk, MatchResult};
ghost use Rattle.words.specs.declared.lists.Unlisted.TheVariants.{NoMemory};
ghost use Rattle.words.specs.Words.{CutAtCommas, PiecesRead, ListText, NoList, Listed, error_for};

use crate::items::Item;
use std::alloc::{AllocError, AllocFailed, Global};

// Why a word is no list.
#[derive(Clone, Copy, Debug, PartialEq, Eq)]
pub enum Unlisted {
    NoItem,
    NoMemory,
}

impl Unlisted {
    fn error<E: Copy>(self, no_list: E, no_memory: E) -> E
        ensures { result ≡ error_for no_list no_memory self }
    {
        match self {
            Unlisted::NoItem => no_list,
            Unlisted::NoMemory => no_memory,
        }
    }
}

// Written out, since contracts name the error that a `?` makes: the first where pieces are collected, the second where an item is pushed.
impl From<AllocError> for Unlisted {
    ghost from_gives = { λ _ why. why ≡ NoMemory };

    fn from(_error: AllocError) -> Unlisted {
        Unlisted::NoMemory
    }
}

impl<T: Drop> From<AllocFailed<T>> for Unlisted {
    ghost from_gives = { λ _ why. why ≡ NoMemory };

    fn from(_error: AllocFailed<T>) -> Unlisted {
        Unlisted::NoMemory
    }
}

fn pieces<'a>(heap: Global, word: &'a str) -> Result<Vec<&'a str>, AllocError>
    ensures { IfOk result (λ v. CutAtCommas word.now (map (λ x. x.now) v.items)) }
{
    word.split(',').collect(heap)
}

// All pieces are cut before any is read, since what is no list is said of them all.
fn read_pieces<T: Item>(heap: Global, parts: &[&str]) -> Result<Vec<T>, Unlisted>
    ensures { PiecesRead T.text (map (λ x. x.now) parts.now) result }
{
    let mut list = Vec::new(heap);
    for part in parts {
        list.push(T::read(part).ok_or(Unlisted::NoItem)?)?;
    }
    Ok(list)
}

// `ITEM,ITEM,..`, or `.` for none.
pub fn read_list<T: Item>(heap: Global, word: &str) -> Result<Vec<T>, Unlisted>
    ensures { Listed T.text word.now result }
{
    if word == "." {
        return Ok(Vec::new(heap));
    }
    let parts = pieces(heap, word)?;
    read_pieces(heap, &parts)
}

// The same, with the caller's own errors for a word that is no list and for want of memory.
pub fn list_or<T: Item, E: Copy>(
    heap: Global,
    word: &str,
    no_list: E,
    no_memory: E,
) -> Result<Vec<T>, E>
    ensures { MatchResult result (λ v. ListText T.text word.now v.items) (λ e. ((e ≡ no_list) × NoList T.text word.now) ⊎ (e ≡ no_memory)) }
{
    read_list(heap, word).map_err(|why| why.error(no_list, no_memory))
}
