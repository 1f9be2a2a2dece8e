// What holds of connections in whatever pieces their bytes come.
ghost use Rattle.mgs_wire.specs.Connections.{ReadsInPieces};

use crate::sessions::Sessions;

/// In whatever pieces the bytes of a connection are read, the connection and the server come to what they come to by all of
/// them in one piece: its login line, then one call for each byte of its session, in their order.
#[tactic(auto, using(crate::proofs::Pieces::in_pieces))]
pub fn reads_in_pieces<E: Sessions>()
    ensures { ReadsInPieces E.does E.live }
{}
