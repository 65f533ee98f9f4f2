// What is carried by value, in lent numbers. Functions and no `From`: types of other crates and arrays take none here.
// The heads of sheet and table stay apart, since they are two types of different fields.
ghost use Rattle.std.specs.Prelude.{◌≡◌};
ghost use Rattle.std.specs.Result.{result_unwrap_or};
ghost use Rattle.refusal.specs.Numbers.{refusal_in};
ghost use Rattle.ffi.specs.Heads.{head_of, table_head_of, set_of};

use attrs::Attrs;
use layout::head::Head;
use refusal::Refusal;
use table::TableHead;

pub(crate) fn head_of(words: &[u32; 3]) -> Head
    ensures { result ≡ head_of words.now }
{
    let [first, items, units] = *words;
    Head {
        first,
        items,
        units,
    }
}

pub(crate) fn words_of(h: Head) -> [u32; 3]
    ensures { head_of result ≡ h }
{
    [h.first, h.items, h.units]
}

// Stores the head of an answer that has one.
pub(crate) fn answered(words: &mut [u32; 3], answer: Result<Head, Refusal>) -> u32
    ensures refusal { result ≡ refusal_in answer }
    ensures head { head_of words.new ≡ result_unwrap_or answer (head_of words.old) }
{
    if let Ok(h) = answer {
        *words = words_of(h);
    }
    refusal::number(answer)
}

// Stores what is answered, or what stands for none.
pub(crate) fn settled<T: Copy>(answer: Result<T, Refusal>, out: &mut T, none: T) -> u32
    ensures refusal { result ≡ refusal_in answer }
    ensures value { out.new ≡ result_unwrap_or answer none }
{
    *out = answer.unwrap_or(none);
    refusal::number(answer)
}

pub(crate) fn set_of(mask: u16, values: &[u8; 16]) -> Attrs
    ensures { result ≡ set_of mask values.now }
{
    Attrs {
        mask,
        values: *values,
    }
}

pub(crate) fn table_head_of(words: &[u32; 2]) -> TableHead
    ensures { result ≡ table_head_of words.now }
{
    let [names, values] = *words;
    TableHead { names, values }
}

pub(crate) fn table_words_of(h: TableHead) -> [u32; 2]
    ensures { table_head_of result ≡ h }
{
    [h.names, h.values]
}
