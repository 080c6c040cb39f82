// The names of each list, in document 01's order.
ghost use Rattle.std.specs.Prelude.{◌≡◌, map};
ghost use Rattle.name_table.specs.Listed.{names_in};

use crate::NameList;

// Keywords, in small letters with underscores.
static KEYWORDS: [&[u8]; 24] = [
    b"ibis_ver",
    b"file_name",
    b"file_rev",
    b"date",
    b"source",
    b"notes",
    b"disclaimer",
    b"copyright",
    b"component",
    b"manufacturer",
    b"package",
    b"pin",
    b"model_selector",
    b"model",
    b"voltage_range",
    b"temperature_range",
    b"pulldown",
    b"pullup",
    b"gnd_clamp",
    b"power_clamp",
    b"ramp",
    b"rising_waveform",
    b"falling_waveform",
    b"end",
];

// The lines under [Component].
static COMPONENT_LINES: [&[u8]; 2] = [b"Si_location", b"Timing_location"];

// The lines under [Package].
static PACKAGE_LINES: [&[u8]; 3] = [b"R_pkg", b"L_pkg", b"C_pkg"];

// The lines under [Model].
static MODEL_LINES: [&[u8]; 14] = [
    b"Model_type",
    b"Polarity",
    b"Enable",
    b"C_comp",
    b"C_comp_pullup",
    b"C_comp_pulldown",
    b"C_comp_power_clamp",
    b"C_comp_gnd_clamp",
    b"Vinl",
    b"Vinh",
    b"Vmeas",
    b"Cref",
    b"Rref",
    b"Vref",
];

// The lines under [Ramp].
static RAMP_LINES: [&[u8]; 3] = [b"dV/dt_r", b"dV/dt_f", b"R_load"];

// The lines under a waveform's keyword.
static FIXTURES: [&[u8]; 9] = [
    b"R_fixture",
    b"V_fixture",
    b"V_fixture_min",
    b"V_fixture_max",
    b"C_fixture",
    b"L_fixture",
    b"R_dut",
    b"L_dut",
    b"C_dut",
];

// The words of Si_location and Timing_location.
static LOCATIONS: [&[u8]; 2] = [b"Pin", b"Die"];

// The words of Model_type.
static MODEL_TYPES: [&[u8]; 15] = [
    b"Input",
    b"Output",
    b"I/O",
    b"3-state",
    b"Open_drain",
    b"I/O_open_drain",
    b"Open_sink",
    b"I/O_open_sink",
    b"Open_source",
    b"I/O_open_source",
    b"Input_ECL",
    b"Output_ECL",
    b"I/O_ECL",
    b"3-state_ECL",
    b"Terminator",
];

// The words of Polarity.
static POLARITIES: [&[u8]; 2] = [b"Inverting", b"Non-Inverting"];

// The words of Enable.
static ENABLES: [&[u8]; 2] = [b"Active-High", b"Active-Low"];

// The names of a list.
pub(crate) fn names_in(list: NameList) -> &'static [&'static [u8]]
    ensures { map (λ n. n.now) result.now ≡ names_in list }
{
    match list {
        NameList::Keywords => &KEYWORDS,
        NameList::ComponentLines => &COMPONENT_LINES,
        NameList::PackageLines => &PACKAGE_LINES,
        NameList::ModelLines => &MODEL_LINES,
        NameList::RampLines => &RAMP_LINES,
        NameList::Fixtures => &FIXTURES,
        NameList::Locations => &LOCATIONS,
        NameList::ModelTypes => &MODEL_TYPES,
        NameList::Polarities => &POLARITIES,
        NameList::Enables => &ENABLES,
    }
}
