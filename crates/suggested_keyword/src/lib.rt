// The keyword that a person may have meant by one that nobody has, as a question in a lent buffer.
#![tactic(auto)]

ghost use Rattle.text_buffer.specs.Pages.{Writes};
ghost use Rattle.near_names.specs.Near.{nearest};
ghost use Rattle.hierarchy.specs.Hierarchy.{hierarchy};
ghost use Rattle.keywords.specs.Form.{spelled};
ghost use Rattle.suggested_keyword.specs.Suggestion.{question, asked, suggestion};

use text_buffer::Page;

// The keywords as the standard writes them, a line each, in the order of `hierarchy::NAMES`.
const WRITTEN: [u8; 1525] = *b"\
    Add Submodel\nAlgorithmic Model\nAlternate Package Models\nBandwidth\nBegin Board Description\n\
    Begin EMI Component\nBegin EMI Model\nC Series\nCac\nCapacitance Matrix\nCircuit Call\n\
    Comment Char\nComponent\nComposite Current\nCopyright\nDate\nDefine Package Model\nDescription\n\
    Diff Falling Waveform Far\nDiff Falling Waveform Near\nDiff Pin\nDiff Rising Waveform Far\n\
    Diff Rising Waveform Near\nDisclaimer\nDriver Schedule\nEnd\nEnd Algorithmic Model\n\
    End Alternate Package Models\nEnd Board Description\nEnd Circuit Call\nEnd EMI Component\n\
    End EMI Model\nEnd External Circuit\nEnd External Model\nEnd Model Data\nEnd Node Declarations\n\
    End Package Model\nExternal Circuit\nExternal Model\nExternal Reference\nFalling Waveform\n\
    Falling Waveform Far\nFalling Waveform Near\nFile Name\nFile Rev\nGND Clamp\n\
    GND Clamp Reference\nGND Pulse Table\nIBIS Ver\nInductance Matrix\nISSO PD\nISSO PU\nL Series\n\
    Lc Series\nManufacturer\nModel\nModel Data\nModel Selector\nModel Spec\nNode Declarations\n\
    Notes\nNumber Of Pins\nNumber Of Sections\nOEM\nOff\nOn\nPackage\nPackage Model\n\
    Path Description\nPin\nPin Domain EMI\nPin EMI\nPin List\nPin Mapping\nPin Numbers\n\
    POWER Clamp\nPOWER Clamp Reference\nPOWER Pulse Table\nPulldown\nPulldown Reference\nPullup\n\
    Pullup Reference\nR Series\nRac\nRamp\nRc Series\nReceiver Thresholds\n\
    Reference Designator Map\nResistance Matrix\nRgnd\nRising Waveform\nRising Waveform Far\n\
    Rising Waveform Near\nRl Series\nRow\nRpower\nSeries Current\nSeries MOSFET\n\
    Series Pin Mapping\nSeries Switch Groups\nSource\nSubmodel\nSubmodel Spec\nTemperature Range\n\
    Test Data\nTest Load\nTTgnd\nTTpower\nVoltage Range";

// The question for the keyword at a place, from 0.
fn put_question(page: &mut Page, k: usize)
    ensures { Writes page.old page.new (question k) }
{
    page.put_bytes(b" Did you mean [");
    page.put_part(&WRITTEN, b'\n', k);
    page.put_bytes(b"]?");
}

// The question for the nearest keyword, if there is one.
fn put_nearest(page: &mut Page, w: &[u8])
    ensures { Writes page.old page.new (asked (nearest (spelled w.now) hierarchy)) }
{
    if let Some(k) = near_names::nearest(w, &hierarchy::NAMES) {
        put_question(page, k);
    }
}

// The question for a line that begins with a keyword in brackets; nothing where no keyword is near.
pub fn put_suggestion(page: &mut Page, line: &[u8])
    ensures { Writes page.old page.new (suggestion line.now) }
{
    if line.is_empty() {
        put_nearest(page, line);
    } else {
        let stop = words::find(line, 1, b']');
        put_nearest(page, &line[1..stop]);
    }
}
