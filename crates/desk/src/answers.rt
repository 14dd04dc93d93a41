// From a line to its answer.
ghost use Rattle.std.specs.Prelude.{map};
ghost use Rattle.desk.specs.Replies.{price_words, PriceAnswered, WordsReplied, Replied};
ghost use Rattle.desk.specs.Weighing.{table_words, WeighAnswered};

use crate::faults::{Fault, PriceFault, WeighFault};
use crate::price::Link;
use crate::weigh::{TableWords, weigh};
use costs::values::Duty;
use std::alloc::Global;
use std::str::from_utf8;
use words::cut::cut_words;
use words::kinds::Kind;
use words::lists::list_or;

// The words of a price request.
#[derive(Clone, Copy, Debug, PartialEq, Eq)]
pub struct PriceWords<'a> {
    pub kind: &'a str,
    pub earlier: &'a str,
    pub later: &'a str,
    pub roster: &'a str,
}

// The answer to a line; none to an empty line or a comment.
pub fn answer(heap: Global, line: &[u8]) -> Result<Option<String>, Fault>
    ensures { Replied line.now result }
{
    if line.starts_with(b"#") {
        return Ok(None);
    }
    let text = from_utf8(line).map_err(|_| Fault::NotText)?;
    let words = cut_words(heap, text)?;
    answer_words(heap, &words)
}

fn answer_words(heap: Global, words: &[&str]) -> Result<Option<String>, Fault>
    ensures { WordsReplied (map (λ x. x.now) words.now) result }
{
    match words {
        [] => Ok(None),
        ["price", kind, earlier, later, roster] => {
            let words = PriceWords {
                kind,
                earlier,
                later,
                roster,
            };
            Ok(Some(answer_price(heap, words).map_err(Fault::InPrice)?))
        }
        ["price", ..] => Err(Fault::NotPrice),
        ["weigh", kind, size, cells, roster] => {
            let words = TableWords {
                size,
                cells,
                roster,
            };
            Ok(Some(answer_weigh(heap, kind, words).map_err(Fault::InWeigh)?))
        }
        ["weigh", ..] => Err(Fault::NotWeigh),
        _ => Err(Fault::NoRequest),
    }
}

fn answer_price(heap: Global, words: PriceWords) -> Result<String, PriceFault>
    ensures { PriceAnswered (price_words words.entry) result }
{
    let kind = words.kind.parse::<Kind>().map_err(|_| PriceFault::NoKind)?;
    let duties = |word| list_or::<Duty, PriceFault>(
        heap,
        word,
        PriceFault::NoDuties,
        PriceFault::NoMemoryLeft,
    );
    let earlier = duties(words.earlier)?;
    let later = duties(words.later)?;
    let columns = list_or(
        heap,
        words.roster,
        PriceFault::NoColumns,
        PriceFault::NoMemoryLeft,
    )?;
    let link = Link {
        earlier: &earlier,
        later: &later,
        roster: &columns,
    };
    let price = link.price(heap, kind).map_err(PriceFault::NotPriced)?;
    Ok(format!(in heap; "ok {price}")?)
}

fn answer_weigh(heap: Global, kind: &str, words: TableWords) -> Result<String, WeighFault>
    ensures { WeighAnswered kind.now (table_words words.entry) result }
{
    let kind = kind.parse::<Kind>().map_err(|_| WeighFault::NoKind)?;
    let price = weigh(heap, kind, words)?;
    Ok(format!(in heap; "ok {price}")?)
}
