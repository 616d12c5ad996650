// The shredder and the rebuilder over files: documents to tables and back.
#![tactic(auto)]

ghost use Rattle.writing.specs.Lent.{Leaves};
ghost use Rattle.writing.specs.Inside.Made.{answer_for};
ghost use Rattle.convert.specs.Convert.{shredded, rebuilt};

use elements::UNREAD;
use files::Under;
use meaning::{Refusal, SMALL};

// The tables of an accepted document, where there is room for them.
pub fn shred(gra: &[u8], tre: &[u8], out: &mut [u8]) -> Result<u32, Refusal>
    ensures { Leaves (shredded gra.now tre.now out.old) (answer_for result) out.new }
{
    let mut kept = [UNREAD; SMALL.elements];
    let Under { graph, read: count } = files::document(gra, tre, &mut kept)?;
    shredder::write(&kept[..count], graph, out)
}

// The document of accepted tables, where there is room for it.
pub fn rebuild(gra: &[u8], edg: &[u8], out: &mut [u8]) -> Result<u32, Refusal>
    ensures { Leaves (rebuilt gra.now edg.now out.old) (answer_for result) out.new }
{
    let mut kept = [UNREAD; SMALL.elements];
    let opened = files::tables(gra, edg, &mut kept)?;
    rebuilder::write(&kept[..opened.read], out)
}
