// The keywords of the hierarchy in source document 000, section 3a, in one constant; and a keyword looked up in it.
#![tactic(auto)]

ghost use Rattle.std.specs.Prelude.{◌≡◌, map};
ghost use Rattle.laws.specs.Lists.{one_of};
ghost use Rattle.words.specs.Spelled.{byte_as};
ghost use Rattle.words.specs.declared.Spelling.TheVariants.{AsKeyword};
ghost use Rattle.name_table.specs.Names.{place_from};
ghost use Rattle.hierarchy.specs.Hierarchy.{hierarchy, is_found};

// Every name in small letters with underscores, in the order of bytes, with a blank between.
pub const NAMES: [u8; 1525] = *b"\
    add_submodel algorithmic_model alternate_package_models bandwidth begin_board_description \
    begin_emi_component begin_emi_model c_series cac capacitance_matrix circuit_call comment_char \
    component composite_current copyright date define_package_model description \
    diff_falling_waveform_far diff_falling_waveform_near diff_pin diff_rising_waveform_far \
    diff_rising_waveform_near disclaimer driver_schedule end end_algorithmic_model \
    end_alternate_package_models end_board_description end_circuit_call end_emi_component \
    end_emi_model end_external_circuit end_external_model end_model_data end_node_declarations \
    end_package_model external_circuit external_model external_reference falling_waveform \
    falling_waveform_far falling_waveform_near file_name file_rev gnd_clamp gnd_clamp_reference \
    gnd_pulse_table ibis_ver inductance_matrix isso_pd isso_pu l_series lc_series manufacturer \
    model model_data model_selector model_spec node_declarations notes number_of_pins \
    number_of_sections oem off on package package_model path_description pin pin_domain_emi pin_emi \
    pin_list pin_mapping pin_numbers power_clamp power_clamp_reference power_pulse_table pulldown \
    pulldown_reference pullup pullup_reference r_series rac ramp rc_series receiver_thresholds \
    reference_designator_map resistance_matrix rgnd rising_waveform rising_waveform_far \
    rising_waveform_near rl_series row rpower series_current series_mosfet series_pin_mapping \
    series_switch_groups source submodel submodel_spec temperature_range test_data test_load ttgnd \
    ttpower voltage_range";

// The place of a keyword in the table, in any letter case, a space equal to an underscore.
pub fn place(w: &[u8]) -> Option<usize>
    ensures value { result ≡ place_from 0 (map (byte_as AsKeyword) w.now) hierarchy }
    ensures result_value { is_found result ≡ one_of (map (byte_as AsKeyword) w.now) hierarchy }
{
    near_names::place(w, &NAMES)
}
