// What was asked: the site with its lists, in engineers' units.
ghost use Rattle.std.specs.Prelude.{◌≡◌, Some, ◌+◌, ◌*◌, ◌≤◌, ◌<◌, length};
ghost use Rattle.travel.specs.TravelTime.{most_segments};
ghost use Rattle.travel.specs.Needs.{most_segment_time};
ghost use Rattle.subarea.specs.Records.{width};
ghost use Rattle.sheet.specs.Text.{kind_text};

use laws::limits;
use reading::{Clock, Hundredths, Study, TenThousandths, Tenths, Thousandths};
use std::{fmt, io};
use subarea::{SEGMENT_COUNT, Setup};
use travel::{Segment, SheetRule};

// How far sheet flow may run. A study that was not refused has one of these rules.
fn print_rule(out: &impl Print, rule: u64) -> io::Result<()> {
    match SheetRule::try_from(rule) {
        Ok(SheetRule::Tr55) => println!(out; "Sheet rule    sheet flow to 300 ft (TR-55, 1986)"),
        Ok(SheetRule::WinTr55) => println!(out;
            "Sheet rule    sheet flow to 100 ft (WinTR-55; NEH 630, chapter 15)"
        ),
        Err(_) => Ok(()),
    }
}

// The rain is cumulative, so that its last entry is the total.
fn print_heading(out: &impl Print, study: &Study) -> io::Result<()> {
    let laid = study.counts();
    let Setup { step, first, rule } = laid.setup;
    let total = study.rain.last().copied().unwrap_or(0);
    println!(out; "DETENTION POND STUDY\n")?;
    println!(out; "Step          {} s = {} (h:mm:ss)", step, Clock(step))?;
    println!(out; "First row     {first}")?;
    print_rule(out, rule)?;
    println!(out; "Rows          {}", laid.rows)?;
    println!(out; "Rain total    {} in", Thousandths(total))?;
    println!(out; "Rain entries  {}", laid.rain)
}

// How many steps lie in five times the time to peak.
fn weights(peak: u64, step: u64) -> u64
    requires { (0 < step) × (peak ≤ most_segments * most_segment_time) }
{
    5 * peak / step
}

// A subarea's line: area, curve number, times of concentration and to peak in seconds, weights.
#[derive(Clone, Copy, Debug, PartialEq, Eq)]
struct SubareaLine {
    number: usize,
    area: Hundredths,
    curve_number: Tenths,
    time: u64,
    peak: u64,
    weights: u64,
}

impl fmt::Display for SubareaLine {
    ghost use Rattle.sheet.specs.Text.{subarea_text};

    ghost output = { λ x. Some (subarea_text x) };

    fn fmt<W: fmt::Write>(&self, f: &mut fmt::Formatter<W>) -> fmt::Result {
        write!(
            f,
            "{:>7} {:>11} {:>13} {:>7} {:>7} {:>8}",
            self.number, self.area, self.curve_number, self.time, self.peak, self.weights
        )
    }
}

// A study that was not refused has no step, and by its sheet rule no record, that fails these tests.
fn subarea_line(setup: Setup, number: usize, own: &[u64]) -> Option<SubareaLine>
    requires { length own.now ≡ width }
{
    let step = setup.step;
    // Two comparisons: from a range's `contains` the bound did not prove.
    if step < limits::LEAST_STEP || step > limits::MOST_STEP {
        return None;
    }
    if !subarea::patches_pass(own) {
        return None;
    }
    if !subarea::segments_pass(setup.rule, own) {
        return None;
    }
    let ground = subarea::ground(own);
    let time = subarea::time(own);
    let peak = travel::time_to_peak(step, time);
    let weights = weights(peak, step);
    Some(SubareaLine {
        number,
        area: Hundredths(ground.area),
        curve_number: Tenths(ground.tenths),
        time,
        peak,
        weights,
    })
}

// A patch's line.
#[derive(Clone, Copy, Debug, PartialEq, Eq)]
struct PatchLine {
    of: usize,
    cover: u64,
    group: char,
    area: Hundredths,
    curve_number: Tenths,
}

impl fmt::Display for PatchLine {
    ghost use Rattle.sheet.specs.Text.{patch_text};

    ghost output = { λ x. Some (patch_text x) };

    fn fmt<W: fmt::Write>(&self, f: &mut fmt::Formatter<W>) -> fmt::Result {
        write!(
            f,
            "{:>7} {:>6}     {} {:>11} {:>13}",
            self.of, self.cover, self.group, self.area, self.curve_number
        )
    }
}

fn group(soil: u64) -> char {
    match soil {
        1 => 'A',
        2 => 'B',
        3 => 'C',
        _ => 'D',
    }
}

// A place that no patch was laid in does not pass. All others of a study that was not refused do.
fn patch_line(of: usize, own: &[u64; curve::PATCH_WIDTH]) -> Option<PatchLine> {
    if !curve::patches_good(own) {
        return None;
    }
    let [cover, soil, area] = *own;
    let tenths = 10 * curve::cover_number(cover, soil);
    Some(PatchLine {
        of,
        cover,
        group: group(soil),
        area: Hundredths(area),
        curve_number: Tenths(tenths),
    })
}

// How a segment flows, and what its time follows from beside its length.
#[derive(Clone, Copy, Debug, PartialEq, Eq)]
enum Flow {
    Unpaved(TenThousandths),
    Paved(TenThousandths),
    Given(Hundredths),
    Sheet {
        n: Thousandths,
        rain: Thousandths,
        slope: TenThousandths,
    },
    Channel {
        n: Thousandths,
        radius: Hundredths,
        slope: TenThousandths,
    },
}

// A segment's line. Each number has a column of its own.
#[derive(Clone, Copy, Debug, PartialEq, Eq)]
struct SegmentLine {
    of: usize,
    length: u64,
    flow: Flow,
    time: u64,
}

impl Flow {
    fn kind(&self) -> &'static str
        ensures { result.now ≡ kind_text self.now }
    {
        match self {
            Flow::Unpaved(_) => "unpaved",
            Flow::Paved(_) => "paved",
            Flow::Given(_) => "given",
            Flow::Sheet { .. } => "sheet",
            Flow::Channel { .. } => "channel",
        }
    }
}

// The columns from n to velocity.
impl fmt::Display for Flow {
    ghost use Rattle.sheet.specs.Text.{flow_text};

    ghost output = { λ x. Some (flow_text x) };

    fn fmt<W: fmt::Write>(&self, f: &mut fmt::Formatter<W>) -> fmt::Result {
        match self {
            Flow::Unpaved(slope) => write!(f, "                       {slope:>13}                "),
            Flow::Paved(slope) => write!(f, "                       {slope:>13}                "),
            Flow::Given(velocity) => write!(
                f,
                "                                          {velocity:>10}"
            ),
            Flow::Sheet { n, rain, slope } => write!(
                f,
                " {n:>6} {rain:>7}        {slope:>13}                "
            ),
            Flow::Channel { n, radius, slope } => write!(
                f,
                " {n:>6}         {radius:>6} {slope:>13}                "
            ),
        }
    }
}

impl fmt::Display for SegmentLine {
    ghost use Rattle.sheet.specs.Text.{segment_text};

    ghost output = { λ x. Some (segment_text x) };

    fn fmt<W: fmt::Write>(&self, f: &mut fmt::Formatter<W>) -> fmt::Result {
        let kind = self.flow.kind();
        write!(
            f,
            "{:>7} {:>9} {:>11}{} {:>8}",
            self.of, kind, self.length, self.flow, self.time
        )
    }
}

fn flow_of(segment: Segment) -> Flow {
    match segment {
        Segment::Unpaved { slope, .. } => Flow::Unpaved(TenThousandths(slope)),
        Segment::Paved { slope, .. } => Flow::Paved(TenThousandths(slope)),
        Segment::Given { velocity, .. } => Flow::Given(Hundredths(velocity)),
        Segment::Sheet { n, rain, slope, .. } => Flow::Sheet {
            n: Thousandths(n),
            rain: Thousandths(rain),
            slope: TenThousandths(slope),
        },
        Segment::Channel {
            n,
            radius,
            slope,
            ..
        } => Flow::Channel {
            n: Thousandths(n),
            radius: Hundredths(radius),
            slope: TenThousandths(slope),
        },
    }
}

// A place that no segment was laid in does not pass; a sheet segment does by the study's rule, since alone it stands first.
fn segment_line(rule: u64, of: usize, own: &[u64; travel::SEGMENT_WIDTH]) -> Option<SegmentLine> {
    if !travel::segments_good(travel::sheet_limit(rule), own) {
        return None;
    }
    let [kind, length, third, fourth, fifth] = *own;
    let segment = Segment::try_from(*own).ok()?;
    let time = travel::segment_time(kind, length, third, fourth, fifth);
    Some(SegmentLine {
        of,
        length,
        flow: flow_of(segment),
        time,
    })
}

fn print_subareas(out: &impl Print, study: &Study) -> io::Result<()> {
    println!(out; "\nSubarea    Area, ac  Curve number   Tc, s   Tp, s  Weights")?;
    for (i, own) in study.records.iter().enumerate() {
        if let Some(line) = subarea_line(study.setup, i + 1, own) {
            println!(out; "{line}")?;
        }
    }
    Ok(())
}

fn print_patches(out: &impl Print, study: &Study) -> io::Result<()> {
    println!(out; "\nSubarea  Cover  Soil    Area, ac  Curve number")?;
    for (i, own) in study.records.iter().enumerate() {
        for patch in own[subarea::PATCHES..SEGMENT_COUNT].as_chunks().0 {
            if let Some(line) = patch_line(i + 1, patch) {
                println!(out; "{line}")?;
            }
        }
    }
    Ok(())
}

fn print_segments(out: &impl Print, study: &Study) -> io::Result<()> {
    println!(out;
        "\nSubarea      Kind  Length, ft      n  P2, in  r, ft  Slope, ft/ft  Velocity, ft/s  Time, s"
    )?;
    for (i, own) in study.records.iter().enumerate() {
        for segment in own[subarea::SEGMENTS..].as_chunks().0 {
            if let Some(line) = segment_line(study.setup.rule, i + 1, segment) {
                println!(out; "{line}")?;
            }
        }
    }
    Ok(())
}

fn print_pond(out: &impl Print, study: &Study) -> io::Result<()> {
    println!(out; "\n       Stage, ft      Storage, cf  Discharge, cfs")?;
    for &[stage, storage, discharge] in &study.pond_rows {
        println!(out;
            "{:>16} {:>16} {:>15}",
            Thousandths(stage),
            Thousandths(storage),
            Thousandths(discharge)
        )?;
    }
    Ok(())
}

pub(crate) fn print_site(out: &impl Print, study: &Study) -> io::Result<()> {
    print_heading(out, study)?;
    print_subareas(out, study)?;
    print_patches(out, study)?;
    print_segments(out, study)?;
    print_pond(out, study)
}
