//! What is told of connections.
ghost use Rattle.std.specs.Prelude.{◌≡◌, IfOk};
ghost use Rattle.json.specs.Print.{print};
ghost use Rattle.beam_page.specs.Json.{Appends};
ghost use Rattle.beam_page.specs.Connections.{connection_list_member, connection_list_tokens, connection_tokens};

use crate::to_json::{ToJson, json_of, put_member};
use json::Writer;
use std::alloc::{AllocError, Global};

/// A connection.
#[derive(Drop)]
pub struct ConnectionFacts {
    /// The number of its place.
    pub place: u64,
    /// Who is at its other end.
    pub peer: String,
    /// Milliseconds since it was accepted.
    pub since_ms: u64,
}

/// The connections of a node.
#[derive(Drop)]
pub struct ConnectionList {
    pub connections: Vec<ConnectionFacts>,
}

impl ToJson for ConnectionFacts {
    ghost tokens = { connection_tokens };

    #[tactic(auto, unfolding(crate::specs::Connections::connection_tokens))]
    fn put(&self, writer: &mut Writer) -> Result<(), AllocError> {
        writer.begin_object()?;
        put_member(writer, "place", &self.place)?;
        put_member(writer, "peer", &self.peer)?;
        put_member(writer, "since_ms", &self.since_ms)?;
        writer.end_object()
    }
}

impl ConnectionList {
    /// Appends its member, without the brackets of an object.
    #[tactic(auto, unfolding(crate::specs::Connections::connection_list_member))]
    fn put_member(&self, writer: &mut Writer) -> Result<(), AllocError>
        ensures { Appends result writer.old writer.new (connection_list_member self.now) }
    {
        put_member(writer, "connections", &self.connections)
    }
}

impl ToJson for ConnectionList {
    ghost tokens = { connection_list_tokens };

    #[tactic(auto, unfolding(crate::specs::Connections::connection_list_tokens))]
    fn put(&self, writer: &mut Writer) -> Result<(), AllocError> {
        writer.begin_object()?;
        self.put_member(writer)?;
        writer.end_object()
    }
}

/// The list as JSON: `{"connections":[{"place":N,"peer":T,"since_ms":N}]}`. It fails only for memory.
pub fn connections_json(alloc: Global, list: &ConnectionList) -> Result<Vec<u8>, AllocError>
    ensures { IfOk result (λ bytes. bytes.items ≡ print (connection_list_tokens list.now)) }
{
    json_of(alloc, list)
}
