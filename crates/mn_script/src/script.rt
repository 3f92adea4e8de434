ghost use Rattle.std.specs.Prelude.{◌≡◌};
ghost use Rattle.mn_script.specs.Script.{IsScript};

use crate::elements::{Act, Point, ScriptClient};
use crate::lists::{Acts, Clients, Points};
use std::marker::Model;

/// A script: on how many nodes and with how many recovery coordinators what clients do what, where
/// they and the nodes crash, and in which order `replay` goes on. It meets the rules and limits of
/// the grammar, but for the length of its text. Contracts see it as a record of these five things.
#[derive(Debug, Drop)]
pub struct Script {
    nodes: u8,
    recoverers: u8,
    clients: Clients,
    points: Points,
    schedule: Acts,
}

impl Model for Script {
    ghost use Rattle.mn_script.specs.Script as script;

    ghost Value = { script.Script };

    ghost view = { λ s. record {
      nodes = s.nodes;
      recoverers = s.recoverers;
      clients = s.clients;
      points = s.points;
      schedule = s.schedule;
    } };

    ghost invariant = { λ s. script.IsScript
        (record {
          nodes = s.nodes;
          recoverers = s.recoverers;
          clients = s.clients;
          points = s.points;
          schedule = s.schedule;
        }) };
}

impl Script {
    /// The script of these parts, which meet the rules and limits.
    pub fn of(nodes: u8, recoverers: u8, clients: Clients, points: Points, schedule: Acts) -> Self
        requires { IsScript (record {
          nodes = nodes;
          recoverers = recoverers;
          clients = clients;
          points = points;
          schedule = schedule;
        }) }
        ensures { result ≡ record {
          nodes = nodes;
          recoverers = recoverers;
          clients = clients;
          points = points;
          schedule = schedule;
        } }
    {
        Script {
            nodes,
            recoverers,
            clients,
            points,
            schedule,
        }
    }

    /// How many nodes there are, 1 to 8.
    pub fn nodes(&self) -> u8
        ensures value { result ≡ self.now.nodes }
        ensures right { IsScript self.now }
    {
        self.nodes
    }

    /// How many recovery coordinators there are, 0 to 4.
    pub fn recoverers(&self) -> u8
        ensures value { result ≡ self.now.recoverers }
        ensures right { IsScript self.now }
    {
        self.recoverers
    }

    /// The clients in order of number.
    pub fn clients(&self) -> &[ScriptClient]
        ensures value { result.now ≡ self.now.clients }
        ensures right { IsScript self.now }
    {
        self.clients.as_slice()
    }

    /// The crash points in order of number.
    pub fn points(&self) -> &[Point]
        ensures value { result.now ≡ self.now.points }
        ensures right { IsScript self.now }
    {
        self.points.as_slice()
    }

    /// The acts in order.
    pub fn schedule(&self) -> &[Act]
        ensures value { result.now ≡ self.now.schedule }
        ensures right { IsScript self.now }
    {
        self.schedule.as_slice()
    }
}
