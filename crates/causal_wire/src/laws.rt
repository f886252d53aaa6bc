//! Laws of parcels, for callers.
ghost use Rattle.std.specs.Prelude.{◌≡◌, ◌+◌, Ok, length};
ghost use Rattle.std.specs.FinSet as set;
ghost use Rattle.causal_holders.specs.Members.{AreProcesses};
ghost use Rattle.causal_wire.specs.Parcels.{Contents, IsRun, IsParcel, IsWritable};
ghost use Rattle.causal_wire.specs.Bytes.{item_bytes, parcel_bytes};
ghost use Rattle.causal_wire.specs.Reading.{read_parcel};
ghost use Rattle.causal_wire.specs.declared.parcel.Head.{Head};
ghost use Rattle.causal_wire.specs.declared.parcel.ParcelItem.{ParcelItem};
ghost use Rattle.causal_wire.specs.declared.parcel.RunId.{RunId};

/// Each parcel of a run can be written.
pub fn writable_law()
    ensures { (run : RunId) (parcel : Head × Contents) → IsParcel run parcel →
        IsWritable parcel.0.source.0 parcel.1 }
{}

/// The bytes of a parcel of a run are read as that parcel.
pub fn reading_law()
    ensures { (run : RunId) (parcel : Head × Contents) → IsRun run → IsParcel run parcel →
        read_parcel run (parcel_bytes run parcel) ≡ Ok parcel }
{}

/// An item has 11 bytes and one for each other holder.
pub fn size_law()
    ensures { (item : ParcelItem) → AreProcesses item.others →
        length (item_bytes item) ≡ 11 + set.len item.others }
{
    causal_holders::laws::ascending_law();
}
