// The three demands, stated over the definitions of the crates below (specs/) and proved (proofs/). The functions here do nothing: the contract of each is
// one promise, and that they are proved says that each promise has its proof. Promises about the contracts themselves (specs/Real, Outcomes) have none
// here, since no contract may cite what is made of a function's code; their proofs are checked as every other file of proofs/.
#![tactic(auto)]

ghost use Rattle.demands.specs.AutoId as auto_id;
ghost use Rattle.demands.specs.Cases as cases;
ghost use Rattle.demands.specs.Demand1.{Demand1};
ghost use Rattle.demands.specs.Demand2.{Demand2};
ghost use Rattle.demands.specs.Demand3.{Demand3};
ghost use Rattle.demands.specs.Display.{Display};
ghost use Rattle.demands.specs.Hits as hits;
ghost use Rattle.demands.specs.OlderCases.{OlderCases};
ghost use Rattle.demands.specs.Ordered.{Rests, FormsAreSafe, Accident, Lived};
ghost use Rattle.demands.specs.Proposed.{ProposedRests, Proposed, Mended};
ghost use Rattle.demands.specs.RackCases.{RackCases};
ghost use Rattle.demands.specs.Racks.{Racks};
ghost use Rattle.demands.specs.Retired.{Retired};
ghost use Rattle.demands.specs.Run.{product, machine_of};
ghost use Rattle.demands.specs.Sentences as sentences;
ghost use Rattle.demands.specs.Serials.{Serials};
ghost use Rattle.demands.specs.SheetCases as sheet_cases;
ghost use Rattle.demands.specs.Sheets as sheets;
ghost use Rattle.demands.specs.Stretches.{Stretches};
ghost use Rattle.demands.specs.Turns.{InTurns};
ghost use Rattle.demands.specs.Twenty.{Twenty};
ghost use Rattle.demands.specs.Unseen.{Unseen, OfferUnseen};
ghost use Rattle.demands.specs.Words.{Words};
ghost use Rattle.demands.specs.Wrong.{Wrong};
ghost use Rattle.demands.specs.WrongDisplay.{WrongDisplay};
ghost use Rattle.demands.specs.WrongHits.{WrongHits};
ghost use Rattle.demands.specs.WrongOffers.{WrongOffers};
ghost use Rattle.demands.specs.WrongOlder.{WrongOlder};
ghost use Rattle.demands.specs.WrongRacks.{WrongRacks};
ghost use Rattle.demands.specs.WrongSerials.{WrongSerials};
ghost use Rattle.demands.specs.WrongSheets.{WrongSheets};
ghost use Rattle.demands.specs.WrongStretches.{WrongStretches};
ghost use Rattle.demands.specs.WrongWords.{WrongWords};
ghost use Rattle.free_number.specs.Demand as keeper;
ghost use Rattle.line.specs.Stretch.{until_of, until_space_of};
ghost use Rattle.order_form.specs.Check.{answer_of};

// ---- the three demands
#[tactic(auto, using(crate::proofs::Refusals::demand1))]
fn demand1_met()
    ensures { Demand1 product }
{}

#[tactic(auto, using(crate::proofs::Demand2::demand2))]
fn demand2_met()
    ensures { Demand2 product }
{}

#[tactic(auto, using(crate::proofs::Proved::proved))]
fn demand3_met()
    ensures { Demand3 (machine_of product) }
{}

#[tactic(auto, using(crate::proofs::Marked::all_marked))]
fn marked_cases_hold()
    ensures { cases.All cases.cases }
{}

#[tactic(auto, using(crate::proofs::Wrongs::wrong))]
fn wrong_versions_fail()
    ensures { Wrong }
{}

#[tactic(auto, using(crate::proofs::Twenty::twenty))]
fn refusal_20_told()
    ensures { Twenty }
{}

// ---- sentences of the documents, tried at a head
#[tactic(auto, using(crate::proofs::Sentences::all_told))]
fn sentences_told()
    ensures { sentences.All sentences.sentences }
{}

// ---- what is kept of a damaged telegram
#[tactic(auto, using(crate::proofs::Hits::shown_bits))]
fn shown_bits_told()
    ensures { hits.Shown }
{}

#[tactic(auto, using(crate::proofs::Hits::hits_kept))]
fn hits_kept()
    ensures { hits.Hits product }
{}

#[tactic(auto, using(crate::proofs::Hits::all_seen))]
fn hits_seen()
    ensures { hits.AllSeen product hits.cases }
{}

#[tactic(auto, using(crate::proofs::Unseen::unseen))]
fn hits_unseen()
    ensures { Unseen product }
{}

#[tactic(auto, using(crate::proofs::WrongHits::wrong_hits))]
fn wrong_hits_fail()
    ensures { WrongHits }
{}

// ---- Auto-ID
#[tactic(auto, using(crate::proofs::AutoId::offers_met))]
fn offers_met()
    ensures { auto_id.Offers product }
{}

#[tactic(auto, using(crate::proofs::AutoId::auto_id))]
fn auto_id_met()
    ensures { auto_id.AutoId product }
{}

#[tactic(auto, using(crate::proofs::AutoId::story))]
fn auto_id_story_holds()
    ensures { auto_id.Story product }
{}

#[tactic(auto, using(crate::proofs::AutoId::all_offered))]
fn offered_cases_hold()
    ensures { auto_id.AllOffered auto_id.cases }
{}

#[tactic(auto, using(crate::proofs::Offering::offer_unseen))]
fn offers_unseen()
    ensures { OfferUnseen product }
{}

#[tactic(auto, using(crate::proofs::WrongOffers::wrong_offers))]
fn wrong_offers_fail()
    ensures { WrongOffers }
{}

// ---- the status word of a reply
#[tactic(auto, using(crate::proofs::Words::words))]
fn words_met()
    ensures { Words product }
{}

#[tactic(auto, using(crate::proofs::WrongWords::wrong_words))]
fn wrong_words_fail()
    ensures { WrongWords }
{}

// ---- settings on a sheet
#[tactic(auto, using(crate::proofs::Sheets::formed))]
fn sheets_formed()
    ensures { sheets.Formed }
{}

#[tactic(auto, using(crate::proofs::Sheets::sheets))]
fn sheets_met()
    ensures { sheets.Sheets product }
{}

#[tactic(auto, using(crate::proofs::Sheets::functions))]
fn sheet_functions_met()
    ensures { sheets.Functions }
{}

#[tactic(auto, using(crate::proofs::SheetCases::all_hold))]
fn sheet_cases_hold()
    ensures { sheet_cases.Hold sheet_cases.cases }
{}

#[tactic(auto, using(crate::proofs::SheetCases::new_sheet))]
fn new_sheet_told()
    ensures { sheet_cases.NewSheet }
{}

#[tactic(auto, using(crate::proofs::SheetCases::all_told))]
fn sheet_sentences_told()
    ensures { sheet_cases.All sheet_cases.sentences }
{}

#[tactic(auto, using(crate::proofs::WrongSheets::wrong_sheets))]
fn wrong_sheets_fail()
    ensures { WrongSheets }
{}

// ---- alpha-numeric display
#[tactic(auto, using(crate::proofs::Displays::displays_right))]
fn display_met()
    ensures { Display product }
{}

#[tactic(auto, using(crate::proofs::WrongDisplay::wrong_display))]
fn wrong_display_fails()
    ensures { WrongDisplay }
{}

// ---- serial numbers
#[tactic(auto, using(crate::proofs::Serials::serial_numbers))]
fn serials_met()
    ensures { Serials product }
{}

#[tactic(auto, using(crate::proofs::WrongSerials::wrong_serials))]
fn wrong_serials_fail()
    ensures { WrongSerials }
{}

// ---- bytes by the stretch, and a rack of telegrams
#[tactic(auto, using(crate::proofs::Stretches::stretches))]
fn stretches_met()
    ensures { Stretches product until_of until_space_of }
{}

#[tactic(auto, using(crate::proofs::WrongStretches::wrong_stretches))]
fn wrong_stretches_fail()
    ensures { WrongStretches }
{}

#[tactic(auto, using(crate::proofs::Racks::racks))]
fn racks_met()
    ensures { Racks product }
{}

#[tactic(auto, using(crate::proofs::Turns::in_turns))]
fn in_turns_met()
    ensures { InTurns product }
{}

#[tactic(auto, using(crate::proofs::RackCases::rack_cases))]
fn rack_cases_hold()
    ensures { RackCases product }
{}

#[tactic(auto, using(crate::proofs::WrongRacks::wrong_racks))]
fn wrong_racks_fail()
    ensures { WrongRacks }
{}

// ---- incremental measurement, retired
#[tactic(auto, using(crate::proofs::Retired::retired))]
fn retired_met()
    ensures { Retired product }
{}

#[tactic(auto, using(crate::proofs::OlderCases::older_cases))]
fn older_cases_hold()
    ensures { OlderCases }
{}

#[tactic(auto, using(crate::proofs::WrongOlder::wrong_older))]
fn wrong_older_fail()
    ensures { WrongOlder }
{}

// ---- what an accepted order form and a free number are worth
#[tactic(auto, using(crate::proofs::Ordered::rests))]
fn ordered_rests()
    ensures { Rests }
{}

#[tactic(auto, using(crate::proofs::Ordered::safe))]
fn forms_are_safe()
    ensures { FormsAreSafe product answer_of }
{}

#[tactic(auto, using(crate::proofs::Lived::sent_back))]
fn accidents_told()
    ensures { Accident product answer_of }
{}

#[tactic(auto, using(crate::proofs::Lived::lived_through))]
fn forms_are_lived_through()
    ensures { Lived product answer_of }
{}

#[tactic(auto, using(crate::proofs::Proposed::proposed_rests))]
fn proposed_rests()
    ensures { ProposedRests }
{}

#[tactic(auto, using(crate::proofs::Proposed::worth))]
fn proposed_met()
    ensures { Proposed keeper.product answer_of }
{}

#[tactic(auto, using(crate::proofs::Lived::made_good))]
fn proposed_mends()
    ensures { Mended product keeper.product answer_of }
{}
