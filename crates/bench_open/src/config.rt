//! What a bench is opened with, as it is handed in.

use crate::account::Account;
use base_list::Octets;
use dia_dict::Dictionary;
use dia_write::Identity;
use tab_text::Table;

/// What a bench is opened with, as it is handed in; the registries stand beside it, since they hold callbacks.
#[derive(Drop)]
pub struct Config {
    /// Who the node is.
    pub identity: Identity,
    /// The hosts of its peers, in their order.
    pub peers: Vec<Octets>,
    /// The accounts of its book, each on the page of its number.
    pub accounts: Vec<Account>,
    /// How many shards, pages of the account book and desks there are.
    pub shards: u64,
    pub pages: u64,
    pub desks: u64,
    /// The octets that a Requested-Service-Unit without an amount asks for (RFC 8506 section 8.18).
    pub default_units: u64,
    /// The standard's definitions of AVPs, and what was added to them.
    pub dictionary: Dictionary,
    /// The table of each role.
    pub peer: Table,
    pub client: Table,
    pub server: Table,
}
