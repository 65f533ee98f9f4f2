// Text and embeds, at an index: plain where no set of attributes comes with it.
ghost use Rattle.std.specs.Prelude.{◌≡◌};
ghost use Rattle.attrs.specs.Packed.{says};
ghost use Rattle.rules.specs.Calls.{insert_text, insert_text_with, insert_embed, insert_embed_with};
ghost use Rattle.layout.specs.Memory.{leaving, carry};
ghost use Rattle.sheet.specs.Inserts.{text_call, embed_call, with_or_plain};

use attrs::Attrs;
use changes::append::append;
use changes::change::Change;
use changes::frame::edit;
use layout::head::Head;
use layout::word::Content;
use refusal::Refusal;
use refusals::{embed_fault, text_fault};
use soundness::sound;

// The plain change is named by its caller, since a mark has none.
fn with_or_plain(content: Content, plain: Change, attrs: Option<Attrs>) -> Change
    ensures { result ≡ with_or_plain content plain attrs }
{
    match attrs {
        Some(attrs) => Change::With { content, attrs },
        None => plain,
    }
}

fn put_text(
    h: Head,
    items: &mut [u64],
    units: &mut [u16],
    index: u32,
    chunk: &[u16],
    attrs: Option<Attrs>,
) -> Result<Head, Refusal>
    ensures { leaving h result items.new units.new ≡ carry (text_call index chunk.now attrs) h items.old units.old }
{
    if !sound(h, items, units) {
        return Err(Refusal::Broken);
    }
    if chunk.is_empty() {
        return Ok(h);
    }
    text_fault(h, items, units, index, chunk)?;
    let start = h.units;
    if chunk.len() > (Head::UNITS - start) as usize {
        return Err(Refusal::Room);
    }
    let len = chunk.len() as u32;
    let text = Content::Text { start, len };
    let change = with_or_plain(text, Change::PlainText { start, len }, attrs);
    let head = edit(h, items, index, change, start + len)?;
    append(units, start, chunk);
    Ok(head)
}

fn put_embed(
    h: Head,
    items: &mut [u64],
    units: &[u16],
    index: u32,
    number: u32,
    attrs: Option<Attrs>,
) -> Result<Head, Refusal>
    ensures { leaving h result items.new units.now ≡ carry (embed_call index number attrs) h items.old units.now }
{
    if !sound(h, items, units) {
        return Err(Refusal::Broken);
    }
    embed_fault(h, items, units, index)?;
    let embed = Content::Embed(number);
    let change = with_or_plain(embed, Change::PlainEmbed(number), attrs);
    edit(h, items, index, change, h.units)
}

// Plain text: it takes what is in force at its place.
pub fn insert(
    h: Head,
    items: &mut [u64],
    units: &mut [u16],
    index: u32,
    chunk: &[u16],
) -> Result<Head, Refusal>
    ensures { leaving h result items.new units.new ≡ carry (insert_text index chunk.now) h items.old units.old }
{
    put_text(h, items, units, index, chunk, None)
}

pub fn insert_with_attributes(
    h: Head,
    items: &mut [u64],
    units: &mut [u16],
    index: u32,
    chunk: &[u16],
    attrs: Attrs,
) -> Result<Head, Refusal>
    ensures { leaving h result items.new units.new ≡ carry (insert_text_with index chunk.now (says attrs)) h items.old units.old }
{
    put_text(h, items, units, index, chunk, Some(attrs))
}

// A plain embed goes right to its place.
pub fn insert_embed(
    h: Head,
    items: &mut [u64],
    units: &[u16],
    index: u32,
    number: u32,
) -> Result<Head, Refusal>
    ensures { leaving h result items.new units.now ≡ carry (insert_embed index number) h items.old units.now }
{
    put_embed(h, items, units, index, number, None)
}

pub fn insert_embed_with_attributes(
    h: Head,
    items: &mut [u64],
    units: &[u16],
    index: u32,
    number: u32,
    attrs: Attrs,
) -> Result<Head, Refusal>
    ensures { leaving h result items.new units.now ≡ carry (insert_embed_with index number (says attrs)) h items.old units.now }
{
    put_embed(h, items, units, index, number, Some(attrs))
}
