//! The networks of the tests, which stand in files.
use kpn_compute::{CardBody, bodies_of};
use kpn_net::{Check, Net, Sketch, read_sketch};
use kpn_standard::Standard;
use std::alloc::Global;
use std::fs;
use std::rt::Files;
use test_kit::{Cells, Report};

const NAMES: [&str; 14] = [
    "sink_of_one",
    "sink_of_three",
    "sink_of_four",
    "budget_of_one",
    "three_full",
    "scale",
    "running_sum",
    "sink_of_two",
    "output_and_growth",
    "sums",
    "pairs",
    "apart",
    "two_sources",
    "copies",
];

/// The description of a network, and the name of its file.
#[derive(Drop)]
struct Network {
    name: &'static str,
    text: String,
}

/// The descriptions of all networks.
#[derive(Drop)]
pub(crate) struct Networks(Vec<Network>);

/// A network, with its bodies.
#[derive(Drop)]
pub(crate) struct NetAndBodies {
    pub(crate) net: Net<Standard>,
    pub(crate) bodies: Vec<CardBody<Standard>>,
}

impl Networks {
    /// Reads all networks.
    pub(crate) fn read<R: Files + AllocGlobal>(rt: &R, report: &mut Report) -> Networks {
        let mut all = Vec::new(rt.alloc());
        for name in NAMES {
            if let Ok(path) = format!(in rt.alloc(); "{name}.toml") {
                if let Ok(text) = fs::read_to_string(rt, path.as_str()) {
                    if all.push(Network { name, text }).is_ok() {
                        continue;
                    }
                }
            }
            report.fail(name);
        }
        Networks(all)
    }

    /// The sketch of a network; none if there is no such network, or no memory.
    pub(crate) fn sketch(&self, alloc: Global, name: &str) -> Option<Sketch> {
        let network = self.0.iter().find(|network| network.name == name)?;
        read_sketch(alloc, network.text.as_bytes()).ok()
    }

    /// A network and its bodies.
    pub(crate) fn parts(&self, alloc: Global, name: &str) -> Option<NetAndBodies> {
        let sketch = self.sketch(alloc, name)?;
        let net = Net::check(alloc, &sketch).ok()?;
        let bodies = bodies_of(alloc, &net).ok()?;
        Some(NetAndBodies { net, bodies })
    }

    /// Reads the name of a network, and whether all its bodies are there, or one is missing (`few`), or they are
    /// in another order (`turned`).
    pub(crate) fn parts_in(&self, alloc: Global, question: &mut Cells<'_>) -> Option<NetAndBodies> {
        let mut parts = self.parts(alloc, question.word())?;
        match question.word() {
            "few" => {
                parts.bodies.pop();
            }
            "turned" => parts.bodies.reverse(),
            _ => {}
        }
        Some(parts)
    }
}
