//! What hears the answers about a copy's nodes.
ghost use Rattle.std.specs.Prelude.{◌≡◌, ◌<◌, [], drop, length, map, true, IfOk, IfErr};
ghost use Rattle.svn_live_audit.specs.declared.fault.LiveFault.TheVariants.{Contradiction};
ghost use Rattle.svn_live_audit.specs.Rounds.{first_round};
ghost use Rattle.svn_live_audit.specs.Places.{place_value, round_of, node_hears};

use crate::fault::LiveFault;
use crate::finding::{Finding, finding_of, suits};
use crate::places::Place;
use std::alloc::{AllocError, Global};
use svn_ask::{Hearer, Question, Said};
use svn_wc::WorkingCopy;

// All but the first.
fn after_first<'a, 'c>(places: &'a [Place<'c>]) -> &'a [Place<'c>]
    requires { 0 < length places.now }
    ensures { result.now ≡ drop 1 places.now }
{
    &places[1..]
}

/// Hears what a server says of the places of a copy's nodes, in path order, and keeps what isn't true.
#[derive(Drop)]
pub struct NodeHearer<'a, 'c> {
    alloc: Global,
    copy: &'c WorkingCopy,
    // of which nothing was said yet
    left: &'a [Place<'c>],
    findings: Vec<Finding>,
    // whether all that was said suits the questions
    suits: bool,
}

impl<'a, 'c> NodeHearer<'a, 'c> {
    /// Nothing was said of these nodes of the copy.
    pub fn new(alloc: Global, copy: &'c WorkingCopy, places: &'a [Place<'c>]) -> NodeHearer<'a, 'c>
        ensures round { round_of result ≡ first_round (map place_value places.now) }
        ensures copy { result.copy.now ≡ copy.now }
    {
        NodeHearer {
            alloc,
            copy,
            left: places,
            findings: Vec::new(alloc),
            suits: true,
        }
    }

    /// What was found of all nodes, in path order. Contradiction where an answer is to no question, or to another, or a node has none.
    pub fn findings(self) -> Result<Vec<Finding>, LiveFault>
        ensures found { IfOk result (λ findings. round_of self.entry ≡ record { left = []; findings = findings.items; suits = true }) }
        ensures fault { IfErr result (λ e. e ≡ Contradiction) }
    {
        if self.suits && self.left.is_empty() {
            Ok(self.findings)
        } else {
            Err(LiveFault::Contradiction)
        }
    }
}

impl Hearer for NodeHearer<'_, '_> {
    ghost hears = { node_hears };

    fn hear(&mut self, _question: &Question<'_>, said: Said) -> Result<(), AllocError> {
        let Some(place) = self.left.first() else {
            self.suits = false;
            return Ok(());
        };
        self.suits = self.suits && suits(place.node, &said);
        if let Some(finding) = finding_of(self.alloc, self.copy, *place, &said)? {
            self.findings.push(finding)?;
        }
        self.left = after_first(self.left);
        Ok(())
    }
}
