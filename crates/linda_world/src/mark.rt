//! Packets that count as delivered.

ghost use Rattle.std.specs.Prelude.{◌≡◌, ◌<◌, All, length};
ghost use Rattle.linda_world_laws.specs.World.{delivered, delivered_at};

use linda_world_laws::Packet;

/// The packet of this number, which is there, counts as delivered.
pub(crate) fn mark_delivered(packets: &mut Vec<Packet>, k: usize)
    requires { k < length packets.old.items }
    ensures { packets.new.items ≡ delivered_at k packets.old.items }
{
    packets[k].delivered = true;
}

/// The packets of these numbers, which are there, count as delivered.
pub(crate) fn mark_all_delivered(packets: &mut Vec<Packet>, ks: &[usize])
    requires { All (λ k. k < length packets.old.items) ks.now }
    ensures { packets.new.items ≡ delivered ks.now packets.old.items }
{
    for k in ks {
        mark_delivered(packets, *k);
    }
}
