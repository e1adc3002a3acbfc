// The names of days, months and zones, looked up with case ignored.
ghost use Rattle.std.specs.Prelude.{◌≡◌, map};
ghost use Rattle.dates.specs.Believed.Names.{called as called_by, zone_names, zone_minutes};
ghost use Rattle.dates.specs.Ties.Names.{place_in, minutes_in};

pub(crate) const DAYS: [&[u8]; 7] = [
    b"Monday",
    b"Tuesday",
    b"Wednesday",
    b"Thursday",
    b"Friday",
    b"Saturday",
    b"Sunday",
];

pub(crate) const MONTHS: [&[u8]; 12] = [
    b"January",
    b"February",
    b"March",
    b"April",
    b"May",
    b"June",
    b"July",
    b"August",
    b"September",
    b"October",
    b"November",
    b"December",
];

// Zones, and local time minus GMT in each, in minutes.
const ZONES: [(&[u8], i16); 43] = [
    (b"GMT", 0),
    (b"NST", -210),
    (b"AST", -240),
    (b"EST", -300),
    (b"CST", -360),
    (b"MST", -420),
    (b"PST", -480),
    (b"YST", -540),
    (b"HST", -600),
    (b"BST", -660),
    (b"ADT", -180),
    (b"EDT", -240),
    (b"CDT", -300),
    (b"MDT", -360),
    (b"PDT", -420),
    (b"YDT", -480),
    (b"HDT", -540),
    (b"BDT", -600),
    (b"Z", 0),
    (b"A", -60),
    (b"B", -120),
    (b"C", -180),
    (b"D", -240),
    (b"E", -300),
    (b"F", -360),
    (b"G", -420),
    (b"H", -480),
    (b"I", -540),
    (b"K", -600),
    (b"L", -660),
    (b"M", -720),
    (b"N", 60),
    (b"O", 120),
    (b"P", 180),
    (b"Q", 240),
    (b"R", 300),
    (b"S", 360),
    (b"T", 420),
    (b"U", 480),
    (b"V", 540),
    (b"W", 600),
    (b"X", 660),
    (b"Y", 720),
];

// Whether a name is the full one or its first three letters.
fn called(full: &[u8], name: &[u8]) -> bool
    ensures { result ≡ called_by full.now name.now }
{
    octets::letters::same_letters(name, full)
        || full.len() >= 3 && octets::letters::same_letters(name, &full[..3])
}

// The place of the first name that is called so.
pub(crate) fn place_of(names: &[&[u8]], name: &[u8]) -> Option<usize>
    ensures { result ≡ place_in (map (λ full. full.now) names.now) name.now }
{
    names.iter().position(|full| called(full, name))
}

// The first zone of a list that is called so. The list is a parameter, for a clause can name it, and the table's references it cannot.
fn zone_in(zones: &[(&[u8], i16)], name: &[u8]) -> Option<i16>
    ensures { result ≡ minutes_in (map (λ zone. zone.0.now) zones.now) (map (λ zone. zone.1) zones.now) name.now }
{
    let zone = zones.iter().find(|zone| called(zone.0, name))?;
    Some(zone.1)
}

// The zone of a name.
pub(crate) fn zone_of(name: &[u8]) -> Option<i16>
    ensures { result ≡ minutes_in zone_names zone_minutes name.now }
{
    zone_in(&ZONES, name)
}
