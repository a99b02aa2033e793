// A plain pack with every track fresh.
ghost use Rattle.std.specs.Prelude.{◌≡◌, ◌*◌, Some, None, vec_len, MatchResult};
ghost use Rattle.pack.specs.Plain.{heads_of, plain_disk, plain_fault};
ghost use Rattle.machine.specs.Freshness.{fresh_up_to, AllFresh};

use crate::tracks::track_at;
use basics::handed_back::HandedBack;
use drive::drive::Drive;
use drive::geometry::CYLINDERS;
use pack::plain_pack::PlainPack;

// makes every track fresh
fn make_fresh(pack: &mut PlainPack)
    ensures { plain_disk pack.new.heads pack.new.bytes.items ≡ fresh_up_to (plain_disk pack.old.heads pack.old.bytes.items) (303 * pack.old.heads) }
{
    let heads = pack.heads();
    for number in 0..CYLINDERS * heads as u16 {
        let _ = pack.fresh_track(track_at(number, heads));
    }
}

// Takes over the bytes of a plain pack, of which nothing is kept: every track is fresh.
pub fn fresh_pack(bytes: Vec<u8>) -> Result<PlainPack, HandedBack<Vec<u8>>>
    ensures { MatchResult result (λ p. (plain_fault bytes.items ≡ None) × (heads_of (vec_len bytes) ≡ Some p.heads) × AllFresh (plain_disk p.heads p.bytes.items)) (λ e. (plain_fault bytes.items ≡ Some e.refusal) × (e.given ≡ bytes)) }
{
    let mut pack = PlainPack::open(bytes)?;
    make_fresh(&mut pack);
    Ok(pack)
}
