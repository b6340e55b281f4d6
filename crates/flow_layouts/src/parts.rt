// Fields that longer layouts read by one call: what 1003 ends with, and what 1014 and 1015 begin with.
#![tactic(auto, unfolding(reading::specs::Cursor::fixed, reading::specs::Cursor::read_item, reading::proofs::Fields::field_out, reading::proofs::Fields::fields_out))]

ghost use Rattle.std.specs.Prelude.{[], ◌∷◌};
ghost use Rattle.reading.specs.Layout.{list as a_list, mac, segments as some_segments, str, words};
ghost use Rattle.flow_layouts.specs.Parts.{network, route};

use layout::field::Mode;
use layout::record::Record;
use layout::{field, lists};
use xdr::{Cursor, Read, Span};

#[derive(Clone, Copy, Default)]
pub struct Route {
    pub dst_as_path: Span,
    pub communities: Span,
    pub local_pref: u32,
}

impl Record for Route {
    ghost layout = { λ _. some_segments ∷ a_list ∷ words 1 };

    ghost values = { route };

    fn zero() -> Route {
        Route::default()
    }

    fn read(c: Cursor, s: &[u8], _mode: Mode) -> Read<Route> {
        let (dst_as_path, c) = lists::segments(c, s)?;
        let (communities, c) = lists::list(c, s)?;
        let (local_pref, c) = c.read_u32(s)?;
        let fields = Route {
            dst_as_path,
            communities,
            local_pref,
        };
        Ok((fields, c))
    }
}

// A network and its station.
#[derive(Clone, Copy, Default)]
pub struct Network {
    pub ssid: Span,
    pub bssid: [u8; 6],
}

impl Record for Network {
    ghost layout = { λ _. str ∷ mac ∷ [] };

    ghost values = { network };

    fn zero() -> Network {
        Network::default()
    }

    fn read(c: Cursor, s: &[u8], _mode: Mode) -> Read<Network> {
        let (ssid, c) = c.read_string(s)?;
        let (bssid, c) = field::six(c, s, Mode::Memo)?;
        Ok((Network { ssid, bssid }, c))
    }
}
