//! Whether two types are the same, wherever their names stand.
ghost use Rattle.std.specs.Prelude.{◌≡◌, map};
ghost use Rattle.campl_tree.specs.View.{view_seq, seq_types, view_chan};
ghost use Rattle.campl_types.specs.SameTest as test;

use campl_tree::{ChanType, SeqType};

/// Whether two sequential types are the same, wherever their names stand. Takes no memory.
#[cycle(same)]
#[tactic(auto, using(crate::proofs::Trees::seq_views))]
pub fn same_seq(t: &SeqType, u: &SeqType) -> bool
    ensures { result ≡ test.same_seq (view_seq t.now) (view_seq u.now) }
{
    match (t, u) {
        (SeqType::Int, SeqType::Int)
        | (SeqType::Char, SeqType::Char)
        | (SeqType::Bool, SeqType::Bool) => true,
        (SeqType::List(t), SeqType::List(u)) => same_seq(t.get(), u.get()),
        (SeqType::Pair(a, b), SeqType::Pair(c, d)) => {
            same_seq(a.get(), c.get()) && same_seq(b.get(), d.get())
        }
        (SeqType::Named(_, x, ts), SeqType::Named(_, y, us)) => {
            x == y && same_seqs(ts.as_slice(), us.as_slice())
        }
        (SeqType::Variable(_, x), SeqType::Variable(_, y)) => x == y,
        _ => false,
    }
}

#[cycle(same)]
#[tactic(auto, using(crate::proofs::Trees::seq_views))]
fn same_seqs(ts: &[SeqType], us: &[SeqType]) -> bool
    ensures { result ≡ test.same_seqs (seq_types (map view_seq ts.now)) (seq_types (map view_seq us.now)) }
{
    if ts.len() != us.len() {
        return false;
    }
    for i in 0..ts.len() {
        if !same_seq(&ts[i], &us[i]) {
            return false;
        }
    }
    true
}

/// Whether two channel types are the same.
#[tactic(auto, using(crate::proofs::Trees::chan_views))]
pub fn same_chan(x: &ChanType, y: &ChanType) -> bool
    ensures { result ≡ test.same_chan (view_chan x.now) (view_chan y.now) }
{
    match (x, y) {
        (ChanType::Put(t, x), ChanType::Put(u, y)) | (ChanType::Get(t, x), ChanType::Get(u, y)) => {
            same_seq(t, u) && same_chan(x.get(), y.get())
        }
        (ChanType::Tensor(a, b), ChanType::Tensor(c, d))
        | (ChanType::Par(a, b), ChanType::Par(c, d)) => {
            same_chan(a.get(), c.get()) && same_chan(b.get(), d.get())
        }
        (ChanType::TopBot, ChanType::TopBot) => true,
        (ChanType::Neg(x), ChanType::Neg(y)) => same_chan(x.get(), y.get()),
        (ChanType::Named(_, x, ts), ChanType::Named(_, y, us)) => {
            x == y && same_seqs(ts.as_slice(), us.as_slice())
        }
        _ => false,
    }
}
