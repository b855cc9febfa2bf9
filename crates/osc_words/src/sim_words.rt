//! What the options of `osc sim` stand for.
ghost use Rattle.std.specs.Prelude.{◌≡◌, IfNone};
ghost use Rattle.osc_words.specs.SimWords as spec;
ghost use Rattle.osc_words.specs.declared.sim_words.DiagramForm.{DiagramForm as AnyForm};

use crate::source::FileName;
use osc_script::ClientName;

/// What `osc sim` is asked for.
#[derive(Debug, PartialEq, Eq, Drop)]
pub struct SimWords {
    /// Whether the bytes of each datagram are printed.
    pub bytes: bool,
    /// Whether the number of the script's line is before each line that it prints.
    pub lines: bool,
    /// The client whose entries are answered alone, if one is wanted.
    pub only: Option<ClientName>,
    /// How the run is drawn in place of its trace, if it is.
    pub diagram: Option<DiagramForm>,
    /// The file that the datagrams are written to, if they are.
    pub pcap: Option<FileName>,
}

/// How a run is drawn.
#[derive(Clone, Copy, Debug, PartialEq, Eq)]
pub enum DiagramForm {
    /// As text.
    Text,
    /// As a picture, in SVG.
    Svg,
}

impl DiagramForm {
    /// The form of this name.
    pub(crate) fn named(text: &str) -> Option<DiagramForm>
        ensures value { result ≡ spec.form_named text.now }
        ensures none { IfNone result ((form : AnyForm) → ¬ spec.SpellsForm text.now form) }
    {
        if text == "text" {
            Some(DiagramForm::Text)
        } else if text == "svg" {
            Some(DiagramForm::Svg)
        } else {
            None
        }
    }
}
