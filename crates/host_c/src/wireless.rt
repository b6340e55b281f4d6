// Made by tools/exports from crates/host.
// 802.11: what was sent or received by radio.
// Each layout has a function of its own, by whose name C asks for it.
ghost use Rattle.std.specs.Prelude.{◌≡◌};
ghost use Rattle.reading.specs.Layout.{memo};
ghost use Rattle.xdr.specs.Shown.{answer_of};
ghost use Rattle.flow_layouts.specs.Shown.{extended_80211_payload, extended_80211_rx, extended_80211_tx, extended_80211_aggregation};
ghost use Rattle.fields.specs.Shown.{read_at};

use fields::descriptor::Words;
use flow_layouts::wireless::{
    Extended80211Aggregation, Extended80211Payload, Extended80211Rx, Extended80211Tx,
};
use layout::record::Reading;
use xdr::Outcome;

// What C gets of a reading of Extended80211Payload, since no generic struct goes to C.
#[repr(C)]
#[derive(Clone, Copy)]
pub struct Extended80211PayloadReading {
    pub outcome: Outcome,
    pub fields: Extended80211Payload,
}

#[unsafe(no_mangle)]
pub extern "C" fn latchplume_read_extended_80211_payload(
    s: &[u8],
    d: &Words,
) -> Extended80211PayloadReading
    ensures { answer_of result.outcome (extended_80211_payload result.fields) ≡ read_at memo 2 1013 s.now d.now }
{
    let Reading { outcome, fields } = host::wireless::latchplume_read_extended_80211_payload(s, d);
    Extended80211PayloadReading { outcome, fields }
}

// What C gets of a reading of Extended80211Rx, since no generic struct goes to C.
#[repr(C)]
#[derive(Clone, Copy)]
pub struct Extended80211RxReading {
    pub outcome: Outcome,
    pub fields: Extended80211Rx,
}

#[unsafe(no_mangle)]
pub extern "C" fn latchplume_read_extended_80211_rx(s: &[u8], d: &Words) -> Extended80211RxReading
    ensures { answer_of result.outcome (extended_80211_rx result.fields) ≡ read_at memo 2 1014 s.now d.now }
{
    let Reading { outcome, fields } = host::wireless::latchplume_read_extended_80211_rx(s, d);
    Extended80211RxReading { outcome, fields }
}

// What C gets of a reading of Extended80211Tx, since no generic struct goes to C.
#[repr(C)]
#[derive(Clone, Copy)]
pub struct Extended80211TxReading {
    pub outcome: Outcome,
    pub fields: Extended80211Tx,
}

#[unsafe(no_mangle)]
pub extern "C" fn latchplume_read_extended_80211_tx(s: &[u8], d: &Words) -> Extended80211TxReading
    ensures { answer_of result.outcome (extended_80211_tx result.fields) ≡ read_at memo 2 1015 s.now d.now }
{
    let Reading { outcome, fields } = host::wireless::latchplume_read_extended_80211_tx(s, d);
    Extended80211TxReading { outcome, fields }
}

// What C gets of a reading of Extended80211Aggregation, since no generic struct goes to C.
#[repr(C)]
#[derive(Clone, Copy)]
pub struct Extended80211AggregationReading {
    pub outcome: Outcome,
    pub fields: Extended80211Aggregation,
}

#[unsafe(no_mangle)]
pub extern "C" fn latchplume_read_extended_80211_aggregation(
    s: &[u8],
    d: &Words,
) -> Extended80211AggregationReading
    ensures { answer_of result.outcome (extended_80211_aggregation result.fields) ≡ read_at memo 2 1016 s.now d.now }
{
    let Reading { outcome, fields } = host::wireless::latchplume_read_extended_80211_aggregation(
        s, d,
    );
    Extended80211AggregationReading { outcome, fields }
}
