//! Walking through a group of records of any kind.
ghost use Rattle.std.specs.Prelude.{◌≡◌, ◌+◌, length, drop, IfOk};
ghost use Rattle.record.specs.Kinds.{kind_of};
ghost use Rattle.reading.specs.Outcomes.{seen};
ghost use Rattle.reading.specs.Places.{Within, NotPast};
ghost use Rattle.reading.specs.Reading.{records, group};
ghost use Rattle.reading.specs.Walking.{counted};

use crate::cells::{header_at, next_packet};
use crate::due::Due;
use crate::walk::{Bounds, Group};
use carrier::Carrier;
use odf::fault::FileFault;
use packet::is_header_like;
use record::kind::RecordKind;
use record::packing::unpack_owned;

/// How many records of kind `K` stand from packet `first` on, up to the next header-like packet.
fn walk_records<K: RecordKind, C: Carrier>(
    carrier: &C,
    first: usize,
    owner: u64,
) -> Result<usize, FileFault>
    requires { NotPast (C.Carrier.cells carrier.now) first }
    ensures answer { result ≡ seen length (records (kind_of K.Items K.Packed.own K.RecordKind.own) owner first 0 (drop first (C.Carrier.cells carrier.now))) }
    ensures within { IfOk result (λ n. Within (C.Carrier.cells carrier.now) (first + n)) }
{
    let mut last = 0;
    for k in first..carrier.count() {
        let packet = next_packet(carrier, k)?;
        if is_header_like(&packet) {
            return Ok(k - first);
        }
        let found = unpack_owned::<K>(&packet, k, owner)?;
        if found.time() < last {
            return Err(FileFault::OutOfOrder { packet: k });
        }
        last = found.end_time();
    }
    Err(FileFault::Ended {
        packet: carrier.count(),
    })
}

/// The group of kind `K` whose header is packet `at`.
pub(crate) fn walk_group<K: RecordKind, C: Carrier>(
    carrier: &C,
    at: usize,
    bounds: Bounds,
    owner: Option<u64>,
) -> Result<Group, FileFault>
    ensures answer { result ≡ seen counted (group (kind_of K.Items K.Packed.own K.RecordKind.own) K.RecordKind.KEY K.RecordKind.LEAST bounds owner at (drop at (C.Carrier.cells carrier.now))) }
    ensures within { IfOk result (λ g. Within (C.Carrier.cells carrier.now) (at + 1 + g.records)) }
{
    let due = Due {
        key: K::KEY,
        length: 1,
        bounds,
    };
    let secondary = header_at(carrier, at, due)?;
    let owner = owner.unwrap_or(u64::from(secondary));
    let records = walk_records::<K, C>(carrier, at + 1, owner)?;
    if records < K::LEAST {
        return Err(FileFault::Misplaced {
            packet: at + 1 + records,
        });
    }
    Ok(Group { secondary, records })
}
