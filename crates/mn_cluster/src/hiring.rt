//! How callers become workers, and workers callers again.
ghost use Rattle.std.specs.Prelude.{◌≡◌, ◌≤◌, ◌<◌, ◌+◌, ◌++◌, ◌∷◌, [], Ok, OnOk, Some};
ghost use Rattle.std.specs.Prelude.{length, vec_capacity, vec_len};
ghost use Rattle.std.specs.List.{AllByRecursion};
ghost use Rattle.mn_actors.specs.declared.actor.Actor.TheVariants.{Client as Calls, Node};
ghost use Rattle.mn_actors.specs.Lists.{held, or_else};
ghost use Rattle.mn_actors.specs.Sight.{board_of, id_of, view_of};
ghost use Rattle.mn_base.specs.declared.ids.ClientNo.{ClientNo};
ghost use Rattle.mn_base.specs.declared.ids.NodeNo.{NodeNo};
ghost use Rattle.mn_callers.specs.Plays.{HaveNumbers, list_by};
ghost use Rattle.mn_callers.specs.Turn.{callers_count};
ghost use Rattle.mn_cluster.specs.Hired.{AreHired, AreInOrder, HaveTurns, IsDone, IsWithout};
ghost use Rattle.mn_cluster.specs.Hired.{client_roles, clients_in, desk_roles, desks_in, list_in};
ghost use Rattle.mn_cluster.specs.Hired.{roles_of, unless};
ghost use Rattle.mn_cluster.specs.Workers.{list_of};

use crate::worker::{Role, Worker};
use mn_actors::{Actor, Board, Pass};
use mn_base::NoMemory;
use mn_callers::{Callers, Client, Desk};
use mn_law::CoreLaw;
use mn_runs::ClientList;

/// The list of who works.
fn list_of(role: &Role) -> &ClientList
    ensures { result.now ≡ list_of role.now }
{
    match role {
        Role::Client {
            client,
            done: _done,
        } => &client.list,
        Role::Recoverer { desk } => &desk.list,
    }
}

/// Takes a caller on, with a pass of its own.
fn hire_one(board: &Board<CoreLaw>, rest: &mut Pass<CoreLaw>, workers: &mut Vec<Worker>, role: Role)
    requires board { board_of rest.old ≡ id_of board.now }
    requires owns { held (view_of rest.old) (Calls (list_of role).client)
        ≡ Some (list_of role).entries }
    requires hired { AreHired (id_of board.now) (view_of rest.old).known workers.old.items }
    requires room { vec_len workers.old < vec_capacity workers.old }
    ensures board { board_of rest.new ≡ board_of rest.old }
    ensures rest { IsWithout (list_of role).client (view_of rest.old) (view_of rest.new) }
    ensures roles { roles_of workers.new.items ≡ roles_of workers.old.items ++ role ∷ [] }
    ensures hired { AreHired (id_of board.now) (view_of rest.old).known workers.new.items }
    ensures len { vec_len workers.new ≡ vec_len workers.old + 1 }
    ensures room { vec_capacity workers.new ≡ vec_capacity workers.old }
{
    let client = list_of(&role).client();
    let pass = board.split(rest, Actor::Client { client });
    workers.push_reserved(Worker { pass, role });
}

/// Takes the recovery coordinators on, in order.
fn hire_desks(
    board: &Board<CoreLaw>,
    rest: &mut Pass<CoreLaw>,
    desks: &mut Vec<Desk>,
    workers: &mut Vec<Worker>,
)
    requires board { board_of rest.old ≡ id_of board.now }
    requires order { AreInOrder 17 (desk_roles desks.old.items) (view_of rest.old) }
    requires hired { AreHired (id_of board.now) (view_of rest.old).known workers.old.items }
    requires room { vec_len workers.old + vec_len desks.old ≤ vec_capacity workers.old }
    ensures board { board_of rest.new ≡ board_of rest.old }
    ensures known { (view_of rest.new).known ≡ (view_of rest.old).known }
    ensures left { (c : ClientNo) → held (view_of rest.new) (Calls c)
        ≡ unless (list_in (desk_roles desks.old.items) c) (held (view_of rest.old) (Calls c)) }
    ensures nodes { (n : NodeNo) → held (view_of rest.new) (Node n)
        ≡ held (view_of rest.old) (Node n) }
    ensures roles { roles_of workers.new.items
        ≡ roles_of workers.old.items ++ desk_roles desks.old.items }
    ensures hired { AreHired (id_of board.now) (view_of rest.old).known workers.new.items }
    ensures len { vec_len workers.new ≡ vec_len workers.old + vec_len desks.old }
    ensures room { vec_capacity workers.new ≡ vec_capacity workers.old }
    ensures none { desks.new.items ≡ [] }
    ensures place { vec_capacity desks.new ≡ vec_capacity desks.old }
{
    desks.reverse();
    while let Some(desk) = desks.pop() {
        hire_one(board, rest, workers, Role::Recoverer { desk });
    }
}

/// Takes the clients on, in order.
fn hire_clients(
    board: &Board<CoreLaw>,
    rest: &mut Pass<CoreLaw>,
    clients: &mut Vec<Client>,
    workers: &mut Vec<Worker>,
)
    requires board { board_of rest.old ≡ id_of board.now }
    requires order { AreInOrder 0 (client_roles clients.old.items) (view_of rest.old) }
    requires hired { AreHired (id_of board.now) (view_of rest.old).known workers.old.items }
    requires room { vec_len workers.old + vec_len clients.old ≤ vec_capacity workers.old }
    ensures board { board_of rest.new ≡ board_of rest.old }
    ensures known { (view_of rest.new).known ≡ (view_of rest.old).known }
    ensures left { (c : ClientNo) → held (view_of rest.new) (Calls c)
        ≡ unless (list_in (client_roles clients.old.items) c) (held (view_of rest.old) (Calls c)) }
    ensures nodes { (n : NodeNo) → held (view_of rest.new) (Node n)
        ≡ held (view_of rest.old) (Node n) }
    ensures roles { roles_of workers.new.items
        ≡ roles_of workers.old.items ++ client_roles clients.old.items }
    ensures hired { AreHired (id_of board.now) (view_of rest.old).known workers.new.items }
    ensures len { vec_len workers.new ≡ vec_len workers.old + vec_len clients.old }
    ensures room { vec_capacity workers.new ≡ vec_capacity workers.old }
    ensures none { clients.new.items ≡ [] }
    ensures place { vec_capacity clients.new ≡ vec_capacity clients.old }
{
    clients.reverse();
    while let Some(client) = clients.pop() {
        let role = Role::Client {
            client,
            done: Ok(()),
        };
        hire_one(board, rest, workers, role);
    }
}

/// Makes workers of the recovery coordinators, and behind them of the clients, each with a pass of
/// its own.
pub fn hire(
    board: &Board<CoreLaw>,
    rest: &mut Pass<CoreLaw>,
    callers: &mut Callers,
    workers: &mut Vec<Worker>,
)
    requires board { board_of rest.old ≡ id_of board.now }
    requires owns { (c : ClientNo) → c.0 < callers_count
        → held (view_of rest.old) (Calls c) ≡ Some (list_by callers.old c) }
    requires numbers { HaveNumbers callers.old }
    requires few { length callers.old.clients.items ≤ 16 }
    requires four { length callers.old.desks.items ≡ 4 }
    requires empty { workers.old.items ≡ [] }
    requires room { 20 ≤ vec_capacity workers.old }
    ensures board { board_of rest.new ≡ board_of rest.old }
    ensures known { (view_of rest.new).known ≡ (view_of rest.old).known }
    ensures left { (c : ClientNo) → held (view_of rest.new) (Calls c)
        ≡ unless (list_in (roles_of workers.new.items) c) (held (view_of rest.old) (Calls c)) }
    ensures nodes { (n : NodeNo) → held (view_of rest.new) (Node n)
        ≡ held (view_of rest.old) (Node n) }
    ensures roles { roles_of workers.new.items
        ≡ desk_roles callers.old.desks.items ++ client_roles callers.old.clients.items }
    ensures hired { AreHired (id_of board.now) (view_of rest.old).known workers.new.items }
    ensures room { vec_capacity workers.new ≡ vec_capacity workers.old }
    ensures none { (callers.new.desks.items ≡ []) × (callers.new.clients.items ≡ []) }
    ensures desks { vec_capacity callers.new.desks ≡ vec_capacity callers.old.desks }
    ensures clients { vec_capacity callers.new.clients ≡ vec_capacity callers.old.clients }
    ensures closer { callers.new.closer ≡ callers.old.closer }
{
    hire_desks(board, rest, &mut callers.desks, workers);
    hire_clients(board, rest, &mut callers.clients, workers);
}

/// Puts a caller back. NoMemory: it found none.
fn put_back(callers: &mut Callers, role: Role) -> Result<(), NoMemory>
    requires desks { vec_len callers.old.desks + length (desks_in (role ∷ []))
        ≤ vec_capacity callers.old.desks }
    requires clients { vec_len callers.old.clients + length (clients_in (role ∷ []))
        ≤ vec_capacity callers.old.clients }
    ensures desks { callers.new.desks.items ≡ callers.old.desks.items ++ desks_in (role ∷ []) }
    ensures clients { callers.new.clients.items
        ≡ callers.old.clients.items ++ clients_in (role ∷ []) }
    ensures desks_room { vec_capacity callers.new.desks ≡ vec_capacity callers.old.desks }
    ensures clients_room { vec_capacity callers.new.clients ≡ vec_capacity callers.old.clients }
    ensures closer { callers.new.closer ≡ callers.old.closer }
    ensures done { OnOk result (IsDone role) }
{
    match role {
        Role::Client { client, done } => {
            callers.clients.push_reserved(client);
            done
        }
        Role::Recoverer { desk } => {
            callers.desks.push_reserved(desk);
            Ok(())
        }
    }
}

/// Makes callers of the workers again, and takes their passes. NoMemory: some client found none.
pub fn dismiss(
    board: &Board<CoreLaw>,
    rest: &mut Pass<CoreLaw>,
    callers: &mut Callers,
    workers: &mut Vec<Worker>,
) -> Result<(), NoMemory>
    requires board { board_of rest.old ≡ id_of board.now }
    requires turns { HaveTurns (id_of board.now) workers.old.items }
    requires none { (callers.old.desks.items ≡ []) × (callers.old.clients.items ≡ []) }
    requires desks { length (desks_in (roles_of workers.old.items))
        ≤ vec_capacity callers.old.desks }
    requires clients { length (clients_in (roles_of workers.old.items))
        ≤ vec_capacity callers.old.clients }
    ensures board { board_of rest.new ≡ board_of rest.old }
    ensures owns { (c : ClientNo) → held (view_of rest.new) (Calls c)
        ≡ or_else (held (view_of rest.old) (Calls c)) (list_in (roles_of workers.old.items) c) }
    ensures nodes { (n : NodeNo) → held (view_of rest.new) (Node n)
        ≡ held (view_of rest.old) (Node n) }
    ensures desks { callers.new.desks.items ≡ desks_in (roles_of workers.old.items) }
    ensures clients { callers.new.clients.items ≡ clients_in (roles_of workers.old.items) }
    ensures closer { callers.new.closer ≡ callers.old.closer }
    ensures done { OnOk result (AllByRecursion IsDone (roles_of workers.old.items)) }
{
    let mut all = Ok(());
    workers.reverse();
    while let Some(Worker { pass, role }) = workers.pop() {
        board.join(rest, pass);
        let done = put_back(callers, role);
        all = first_err(all, done);
    }
    all
}

/// Ok where both are.
fn first_err(one: Result<(), NoMemory>, other: Result<(), NoMemory>) -> Result<(), NoMemory>
    ensures { OnOk result ((one ≡ Ok tt) × (other ≡ Ok tt)) }
{
    match one {
        Ok(()) => other,
        Err(NoMemory) => Err(NoMemory),
    }
}
