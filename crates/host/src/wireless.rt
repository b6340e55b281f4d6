// Made by layouts/make from layouts/table.
// 802.11: what was sent or received by radio.
// Each layout has a function of its own, by whose name C asks for it.
ghost use Rattle.std.specs.Prelude.{◌≡◌};
ghost use Rattle.reading.specs.Layout.{memo};
ghost use Rattle.xdr.specs.Shown.{answer_of};
ghost use Rattle.flow_layouts.specs.Shown.{extended_80211_payload, extended_80211_rx, extended_80211_tx, extended_80211_aggregation};
ghost use Rattle.fields.specs.Shown.{read_at};

use fields::ask::read;
use fields::descriptor::Words;
use flow_layouts::wireless::{
    Extended80211Aggregation, Extended80211Payload, Extended80211Rx, Extended80211Tx,
};
use layout::field::Mode;
use layout::record::Reading;

pub fn latchplume_read_extended_80211_payload(s: &[u8], d: &Words) -> Reading<Extended80211Payload>
    ensures { answer_of result.outcome (extended_80211_payload result.fields) ≡ read_at memo 2 1013 s.now d.now }
{
    read(s, d, 2, 1013, Mode::Memo)
}

pub fn latchplume_read_extended_80211_rx(s: &[u8], d: &Words) -> Reading<Extended80211Rx>
    ensures { answer_of result.outcome (extended_80211_rx result.fields) ≡ read_at memo 2 1014 s.now d.now }
{
    read(s, d, 2, 1014, Mode::Memo)
}

pub fn latchplume_read_extended_80211_tx(s: &[u8], d: &Words) -> Reading<Extended80211Tx>
    ensures { answer_of result.outcome (extended_80211_tx result.fields) ≡ read_at memo 2 1015 s.now d.now }
{
    read(s, d, 2, 1015, Mode::Memo)
}

pub fn latchplume_read_extended_80211_aggregation(
    s: &[u8],
    d: &Words,
) -> Reading<Extended80211Aggregation>
    ensures { answer_of result.outcome (extended_80211_aggregation result.fields) ≡ read_at memo 2 1016 s.now d.now }
{
    read(s, d, 2, 1016, Mode::Memo)
}
