// Sheet and channel flow by Manning's formula, over powers that outgrow 64 bits. What does not depend on T is multiplied out once
// a segment. Units: length in ft, n in thousandths, rain in thousandths of an inch, radius in hundredths of a ft, slope in
// ten-thousandths.
ghost use Rattle.std.specs.Prelude.{◌≡◌};
ghost use Rattle.travel.specs.TravelTime.{sheet, channel};
ghost use Rattle.travel.specs.Needs.{SheetOk, ChannelOk};

pub(crate) fn sheet_time(length: u64, n: u64, rain: u64, slope: u64) -> u64
    requires { SheetOk length n rain slope }
    ensures { result ≡ sheet length n rain slope }
{
    // 63504 is 252^2.
    let top = wide::two_powers(63504, 5, n * length, 8);
    let bottom = wide::three_powers(rain, 5, slope, 4, 1000, 1);
    roots::power::root(&top, &bottom, 10)
}

pub(crate) fn channel_time(length: u64, n: u64, radius: u64, slope: u64) -> u64
    requires { ChannelOk length n radius slope }
    ensures { result ≡ channel length n radius slope }
{
    let top = wide::two_powers(n * length, 6, 10000000, 2);
    // 3307949 is 149^3.
    let bottom = wide::three_powers(3307949, 2, radius, 4, slope, 3);
    roots::power::root(&top, &bottom, 6)
}
