// The whole record of a model.
ghost use Rattle.std.specs.Prelude.{◌≡◌};
ghost use Rattle.model_record.specs.Firsts.{defaulted};
ghost use Rattle.model_record.specs.Bodies.{model_over};

use crate::firsts::with_defaults;
use crate::{Body, FirstLines};
use records::{Model, Name, Span};

// What the first lines and the keywords say, with the thresholds of its type.
pub fn model_over(section: usize, start: usize, name: Name, lines: FirstLines, b: Body) -> Model
    ensures { result ≡ model_over section start name (defaulted lines) b }
{
    let marks = lines.marks;
    let kind = marks.kind;
    let polarity = marks.polarity;
    let enable = marks.enable;
    let comp = lines.comp;
    let split = lines.split;
    let levels = with_defaults(kind, lines.levels);
    let vinl = levels.vinl;
    let vinh = levels.vinh;
    let vmeas = levels.vmeas;
    let cref = levels.cref;
    let rref = levels.rref;
    let vref = levels.vref;
    let voltage = b.voltage;
    let temperature = b.temperature;
    let pulldown = b.pulldown;
    let pullup = b.pullup;
    let ground = b.ground;
    let power = b.power;
    let ramp = b.ramp;
    Model {
        section: section,
        name: name,
        kind: kind,
        polarity: polarity,
        enable: enable,
        comp: comp,
        split: split,
        vinl: vinl,
        vinh: vinh,
        vmeas: vmeas,
        cref: cref,
        rref: rref,
        vref: vref,
        voltage: voltage,
        temperature: temperature,
        pulldown: pulldown,
        pullup: pullup,
        ground: ground,
        power: power,
        ramp: ramp,
        waveforms: Span {
            start: start,
            count: b.waveforms,
        },
    }
}
