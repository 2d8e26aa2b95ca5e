//! From the AVPs of a message, sorted by the format of its command, to the command: each field is made of the AVPs that
//! its entry takes, and the rest of those that no entry takes. The numbers are the places of the fields in the format.

ghost use Rattle.std.specs.Prelude.{◌≡◌, false};
ghost use Rattle.dia_command.specs.Format.{format_of};
ghost use Rattle.dia_msg.specs.Sorting.{seen_all};
ghost use Rattle.dia_msg.specs.Source.{IsReady, IsBuilt};

use crate::source::Source;
use dia_command::{
    CapabilitiesExchangeAnswer, CapabilitiesExchangeRequest, Command, CommandKind,
    CreditControlAnswer, CreditControlRequest, DeviceWatchdogAnswer, DeviceWatchdogRequest,
    DisconnectPeerAnswer, DisconnectPeerRequest, ErrorAnswer, Header, ReAuthAnswer, ReAuthRequest,
};

impl Source<'_> {
    #[inline(never)]
    fn capabilities_exchange_request(&self, header: Header, no_memory: &mut bool) -> Command
        requires ready { IsReady self.now.dictionary.now self.now.format.now (seen_all self.now.avps.now)
            self.now.sorted.now }
        requires format { self.now.format.now ≡ format_of CommandKind.CapabilitiesExchangeRequest false }
        ensures { no_memory.new ≡ false → (no_memory.old ≡ false)
            × IsBuilt self.now.dictionary.now (format_of CommandKind.CapabilitiesExchangeRequest false)
            (seen_all self.now.avps.now) CommandKind.CapabilitiesExchangeRequest header result }
    {
        Command::Cer(CapabilitiesExchangeRequest {
            header,
            origin_host: self.one(0, no_memory),
            origin_realm: self.one(1, no_memory),
            host_ip_address: self.all(2, no_memory),
            vendor_id: self.number(3),
            product_name: self.one(4, no_memory),
            auth_application_id: self.all(5, no_memory),
            rest: self.rest(no_memory),
        })
    }

    #[inline(never)]
    fn capabilities_exchange_answer(&self, header: Header, no_memory: &mut bool) -> Command
        requires ready { IsReady self.now.dictionary.now self.now.format.now (seen_all self.now.avps.now)
            self.now.sorted.now }
        requires format { self.now.format.now ≡ format_of CommandKind.CapabilitiesExchangeAnswer false }
        ensures { no_memory.new ≡ false → (no_memory.old ≡ false)
            × IsBuilt self.now.dictionary.now (format_of CommandKind.CapabilitiesExchangeAnswer false)
            (seen_all self.now.avps.now) CommandKind.CapabilitiesExchangeAnswer header result }
    {
        Command::Cea(CapabilitiesExchangeAnswer {
            header,
            result_code: self.number(0),
            origin_host: self.one(1, no_memory),
            origin_realm: self.one(2, no_memory),
            host_ip_address: self.all(3, no_memory),
            vendor_id: self.number(4),
            product_name: self.one(5, no_memory),
            auth_application_id: self.all(6, no_memory),
            rest: self.rest(no_memory),
        })
    }

    #[inline(never)]
    fn device_watchdog_request(&self, header: Header, no_memory: &mut bool) -> Command
        requires ready { IsReady self.now.dictionary.now self.now.format.now (seen_all self.now.avps.now)
            self.now.sorted.now }
        requires format { self.now.format.now ≡ format_of CommandKind.DeviceWatchdogRequest false }
        ensures { no_memory.new ≡ false → (no_memory.old ≡ false)
            × IsBuilt self.now.dictionary.now (format_of CommandKind.DeviceWatchdogRequest false)
            (seen_all self.now.avps.now) CommandKind.DeviceWatchdogRequest header result }
    {
        Command::Dwr(DeviceWatchdogRequest {
            header,
            origin_host: self.one(0, no_memory),
            origin_realm: self.one(1, no_memory),
            rest: self.rest(no_memory),
        })
    }

    #[inline(never)]
    fn device_watchdog_answer(&self, header: Header, no_memory: &mut bool) -> Command
        requires ready { IsReady self.now.dictionary.now self.now.format.now (seen_all self.now.avps.now)
            self.now.sorted.now }
        requires format { self.now.format.now ≡ format_of CommandKind.DeviceWatchdogAnswer false }
        ensures { no_memory.new ≡ false → (no_memory.old ≡ false)
            × IsBuilt self.now.dictionary.now (format_of CommandKind.DeviceWatchdogAnswer false)
            (seen_all self.now.avps.now) CommandKind.DeviceWatchdogAnswer header result }
    {
        Command::Dwa(DeviceWatchdogAnswer {
            header,
            result_code: self.number(0),
            origin_host: self.one(1, no_memory),
            origin_realm: self.one(2, no_memory),
            rest: self.rest(no_memory),
        })
    }

    #[inline(never)]
    fn disconnect_peer_request(&self, header: Header, no_memory: &mut bool) -> Command
        requires ready { IsReady self.now.dictionary.now self.now.format.now (seen_all self.now.avps.now)
            self.now.sorted.now }
        requires format { self.now.format.now ≡ format_of CommandKind.DisconnectPeerRequest false }
        ensures { no_memory.new ≡ false → (no_memory.old ≡ false)
            × IsBuilt self.now.dictionary.now (format_of CommandKind.DisconnectPeerRequest false)
            (seen_all self.now.avps.now) CommandKind.DisconnectPeerRequest header result }
    {
        Command::Dpr(DisconnectPeerRequest {
            header,
            origin_host: self.one(0, no_memory),
            origin_realm: self.one(1, no_memory),
            disconnect_cause: self.number(2),
            rest: self.rest(no_memory),
        })
    }

    #[inline(never)]
    fn disconnect_peer_answer(&self, header: Header, no_memory: &mut bool) -> Command
        requires ready { IsReady self.now.dictionary.now self.now.format.now (seen_all self.now.avps.now)
            self.now.sorted.now }
        requires format { self.now.format.now ≡ format_of CommandKind.DisconnectPeerAnswer false }
        ensures { no_memory.new ≡ false → (no_memory.old ≡ false)
            × IsBuilt self.now.dictionary.now (format_of CommandKind.DisconnectPeerAnswer false)
            (seen_all self.now.avps.now) CommandKind.DisconnectPeerAnswer header result }
    {
        Command::Dpa(DisconnectPeerAnswer {
            header,
            result_code: self.number(0),
            origin_host: self.one(1, no_memory),
            origin_realm: self.one(2, no_memory),
            rest: self.rest(no_memory),
        })
    }

    #[inline(never)]
    fn re_auth_request(&self, header: Header, no_memory: &mut bool) -> Command
        requires ready { IsReady self.now.dictionary.now self.now.format.now (seen_all self.now.avps.now)
            self.now.sorted.now }
        requires format { self.now.format.now ≡ format_of CommandKind.ReAuthRequest false }
        ensures { no_memory.new ≡ false → (no_memory.old ≡ false)
            × IsBuilt self.now.dictionary.now (format_of CommandKind.ReAuthRequest false)
            (seen_all self.now.avps.now) CommandKind.ReAuthRequest header result }
    {
        Command::Rar(ReAuthRequest {
            header,
            session_id: self.one(0, no_memory),
            origin_host: self.one(1, no_memory),
            origin_realm: self.one(2, no_memory),
            destination_realm: self.one(3, no_memory),
            destination_host: self.one(4, no_memory),
            auth_application_id: self.number(5),
            re_auth_request_type: self.number(6),
            rest: self.rest(no_memory),
        })
    }

    #[inline(never)]
    fn re_auth_answer(&self, header: Header, no_memory: &mut bool) -> Command
        requires ready { IsReady self.now.dictionary.now self.now.format.now (seen_all self.now.avps.now)
            self.now.sorted.now }
        requires format { self.now.format.now ≡ format_of CommandKind.ReAuthAnswer false }
        ensures { no_memory.new ≡ false → (no_memory.old ≡ false)
            × IsBuilt self.now.dictionary.now (format_of CommandKind.ReAuthAnswer false)
            (seen_all self.now.avps.now) CommandKind.ReAuthAnswer header result }
    {
        Command::Raa(ReAuthAnswer {
            header,
            session_id: self.one(0, no_memory),
            result_code: self.number(1),
            origin_host: self.one(2, no_memory),
            origin_realm: self.one(3, no_memory),
            rest: self.rest(no_memory),
        })
    }

    #[inline(never)]
    fn credit_control_request(&self, header: Header, event: bool, no_memory: &mut bool) -> Command
        requires ready { IsReady self.now.dictionary.now self.now.format.now (seen_all self.now.avps.now)
            self.now.sorted.now }
        requires format { self.now.format.now ≡ format_of CommandKind.CreditControlRequest event }
        ensures { no_memory.new ≡ false → (no_memory.old ≡ false)
            × IsBuilt self.now.dictionary.now (format_of CommandKind.CreditControlRequest event)
            (seen_all self.now.avps.now) CommandKind.CreditControlRequest header result }
    {
        Command::Ccr(CreditControlRequest {
            header,
            session_id: self.one(0, no_memory),
            origin_host: self.one(1, no_memory),
            origin_realm: self.one(2, no_memory),
            destination_realm: self.one(3, no_memory),
            auth_application_id: self.number(4),
            service_context_id: self.one(5, no_memory),
            cc_request_type: self.number(6),
            cc_request_number: self.number(7),
            subscription_id: self.all(8, no_memory),
            requested_action: self.perhaps_number(9),
            requested_service_unit: self.perhaps(10, no_memory),
            used_service_unit: self.all(11, no_memory),
            multiple_services_indicator: self.perhaps_number(12),
            multiple_services_credit_control: self.all(13, no_memory),
            rest: self.rest(no_memory),
        })
    }

    #[inline(never)]
    fn credit_control_answer(&self, header: Header, no_memory: &mut bool) -> Command
        requires ready { IsReady self.now.dictionary.now self.now.format.now (seen_all self.now.avps.now)
            self.now.sorted.now }
        requires format { self.now.format.now ≡ format_of CommandKind.CreditControlAnswer false }
        ensures { no_memory.new ≡ false → (no_memory.old ≡ false)
            × IsBuilt self.now.dictionary.now (format_of CommandKind.CreditControlAnswer false)
            (seen_all self.now.avps.now) CommandKind.CreditControlAnswer header result }
    {
        Command::Cca(CreditControlAnswer {
            header,
            session_id: self.one(0, no_memory),
            result_code: self.number(1),
            origin_host: self.one(2, no_memory),
            origin_realm: self.one(3, no_memory),
            auth_application_id: self.number(4),
            cc_request_type: self.number(5),
            cc_request_number: self.number(6),
            granted_service_unit: self.perhaps(7, no_memory),
            final_unit_indication: self.perhaps(8, no_memory),
            check_balance_result: self.perhaps_number(9),
            multiple_services_credit_control: self.all(10, no_memory),
            rest: self.rest(no_memory),
        })
    }

    #[inline(never)]
    fn error_answer(&self, header: Header, no_memory: &mut bool) -> Command
        requires ready { IsReady self.now.dictionary.now self.now.format.now (seen_all self.now.avps.now)
            self.now.sorted.now }
        requires format { self.now.format.now ≡ format_of CommandKind.ErrorAnswer false }
        ensures { no_memory.new ≡ false → (no_memory.old ≡ false)
            × IsBuilt self.now.dictionary.now (format_of CommandKind.ErrorAnswer false)
            (seen_all self.now.avps.now) CommandKind.ErrorAnswer header result }
    {
        Command::ErrorAnswer(ErrorAnswer {
            header,
            session_id: self.perhaps(0, no_memory),
            origin_host: self.one(1, no_memory),
            origin_realm: self.one(2, no_memory),
            result_code: self.number(3),
            failed_avp: self.perhaps(4, no_memory),
            rest: self.rest(no_memory),
        })
    }

    /// The command of a kind with a header; `event` where the message is an EVENT request.
    pub fn command(
        &self,
        kind: CommandKind,
        event: bool,
        header: Header,
        no_memory: &mut bool,
    ) -> Command
        requires ready { IsReady self.now.dictionary.now self.now.format.now (seen_all self.now.avps.now)
            self.now.sorted.now }
        requires format { self.now.format.now ≡ format_of kind event }
        ensures { no_memory.new ≡ false → (no_memory.old ≡ false)
            × IsBuilt self.now.dictionary.now (format_of kind event)
            (seen_all self.now.avps.now) kind header result }
    {
        match kind {
            CommandKind::CapabilitiesExchangeRequest => {
                self.capabilities_exchange_request(header, no_memory)
            }
            CommandKind::CapabilitiesExchangeAnswer => {
                self.capabilities_exchange_answer(header, no_memory)
            }
            CommandKind::DeviceWatchdogRequest => self.device_watchdog_request(header, no_memory),
            CommandKind::DeviceWatchdogAnswer => self.device_watchdog_answer(header, no_memory),
            CommandKind::DisconnectPeerRequest => self.disconnect_peer_request(header, no_memory),
            CommandKind::DisconnectPeerAnswer => self.disconnect_peer_answer(header, no_memory),
            CommandKind::ReAuthRequest => self.re_auth_request(header, no_memory),
            CommandKind::ReAuthAnswer => self.re_auth_answer(header, no_memory),
            CommandKind::CreditControlRequest => {
                self.credit_control_request(header, event, no_memory)
            }
            CommandKind::CreditControlAnswer => self.credit_control_answer(header, no_memory),
            CommandKind::ErrorAnswer => self.error_answer(header, no_memory),
        }
    }
}
